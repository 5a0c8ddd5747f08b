// Bytes as elements of GF(2^8): M, the S-box as a table to be lent, and doubling.
#![tactic(auto)]

ghost use Rattle.std.specs.Prelude.{◌≡◌};
ghost use Rattle.gf256.specs.Field.{times, s_box, s_boxes};

// The Rijndael proposal, 4.2.1: the inverse, and then the affine map.
const S_BOX: [u8; 256] = *b"\
    \x63\x7c\x77\x7b\xf2\x6b\x6f\xc5\x30\x01\x67\x2b\xfe\xd7\xab\x76\
    \xca\x82\xc9\x7d\xfa\x59\x47\xf0\xad\xd4\xa2\xaf\x9c\xa4\x72\xc0\
    \xb7\xfd\x93\x26\x36\x3f\xf7\xcc\x34\xa5\xe5\xf1\x71\xd8\x31\x15\
    \x04\xc7\x23\xc3\x18\x96\x05\x9a\x07\x12\x80\xe2\xeb\x27\xb2\x75\
    \x09\x83\x2c\x1a\x1b\x6e\x5a\xa0\x52\x3b\xd6\xb3\x29\xe3\x2f\x84\
    \x53\xd1\x00\xed\x20\xfc\xb1\x5b\x6a\xcb\xbe\x39\x4a\x4c\x58\xcf\
    \xd0\xef\xaa\xfb\x43\x4d\x33\x85\x45\xf9\x02\x7f\x50\x3c\x9f\xa8\
    \x51\xa3\x40\x8f\x92\x9d\x38\xf5\xbc\xb6\xda\x21\x10\xff\xf3\xd2\
    \xcd\x0c\x13\xec\x5f\x97\x44\x17\xc4\xa7\x7e\x3d\x64\x5d\x19\x73\
    \x60\x81\x4f\xdc\x22\x2a\x90\x88\x46\xee\xb8\x14\xde\x5e\x0b\xdb\
    \xe0\x32\x3a\x0a\x49\x06\x24\x5c\xc2\xd3\xac\x62\x91\x95\xe4\x79\
    \xe7\xc8\x37\x6d\x8d\xd5\x4e\xa9\x6c\x56\xf4\xea\x65\x7a\xae\x08\
    \xba\x78\x25\x2e\x1c\xa6\xb4\xc6\xe8\xdd\x74\x1f\x4b\xbd\x8b\x8a\
    \x70\x3e\xb5\x66\x48\x03\xf6\x0e\x61\x35\x57\xb9\x86\xc1\x1d\x9e\
    \xe1\xf8\x98\x11\x69\xd9\x8e\x94\x9b\x1e\x87\xe9\xce\x55\x28\xdf\
    \x8c\xa1\x89\x0d\xbf\xe6\x42\x68\x41\x99\x2d\x0f\xb0\x54\xbb\x16";

// The S-box as a table. A public call makes it once and lends it: a function that names a constant copies it.
#[derive(Clone, Copy)]
pub struct SBox {
    table: [u8; 256],
    ghost is_s_box: { table ≡ s_boxes },
}

impl SBox {
    pub fn new() -> Self
        ensures { result.table ≡ s_boxes }
    {
        SBox { table: S_BOX }
    }

    // A caller's own array, where it is the S-box.
    pub fn of(table: [u8; 256]) -> Self
        requires { table ≡ s_boxes }
        ensures { result.table ≡ s_boxes }
    {
        SBox { table }
    }

    // b through the S-box.
    pub fn substitute(&self, b: u8) -> u8
        ensures { result ≡ s_box b }
    {
        self.table[b as usize]
    }
}

// M (clauses 5.5, 6.5, 7.5), b times 0xd7, by shifts and sums. 0xd7 is 3 (9 + 4 + 64), and the polynomial brings what goes out above bit 7
// back by 0x1b, which is 3 * 9: so what goes out, b shifted down by 1, 2, 4, 5 and 6, is summed with b and meets the 9 with it.
// (Table 1 prints 0xb1 at 0x26; multiplication decides.)
pub fn times_d7(b: u8) -> u8
    ensures { result ≡ times 0xd7 b }
{
    let near = b ^ b >> 1 ^ b >> 2;
    let nine = near ^ near >> 4;
    let third = nine ^ nine << 3 ^ b << 2 ^ b << 6;
    third ^ third << 1
}

// Twice b, without a test: the bit that goes out takes the polynomial with it.
pub fn twice(b: u8) -> u8
    ensures { result ≡ times 2 b }
{
    b % 128 * 2 ^ b / 128 * 27
}
