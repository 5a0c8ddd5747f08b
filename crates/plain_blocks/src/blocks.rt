// The blocks of the keystream: clauses 5.4, 6.4, 7.4.
ghost use Rattle.std.specs.Prelude.{◌++◌, ◌≡◌, ◌%◌};
ghost use Rattle.tea.specs.Keystream.{tag, block_of};

use tea::mode::Mode;

fn low_byte(x: usize) -> u8
    ensures { result ≡ x % 256 }
{
    (x % 256) as u8
}

// p[24] to p[31]: 'T', 'E', 'A', the digit, and j as four bytes, the most significant first.
fn tag(digit: u8, j: usize) -> [u8; 8]
    ensures { result ≡ tag digit j }
{
    [
        b'T',
        b'E',
        b'A',
        digit,
        low_byte(j / 16777216),
        low_byte(j / 65536),
        low_byte(j / 256),
        low_byte(j),
    ]
}

// p[0] to p[31]: IVM first, then the tag.
fn plaintext(ivm: [u8; 24], tag: [u8; 8]) -> [u8; 32]
    ensures { result ≡ ivm ++ tag }
{
    let mut p = [0u8; 32];
    p[..24].copy_from_slice(&ivm);
    p[24..].copy_from_slice(&tag);
    p
}

// c[0] to c[31]: the encryption with the number j, under the mode key.
pub fn block(mode: Mode, j: usize) -> [u8; 32]
    ensures { result ≡ block_of mode j }
{
    let key = mode.key;
    let value = mode.value;
    plain_rijndael::cipher(plaintext(value, tag(mode.digit, j)), key)
}
