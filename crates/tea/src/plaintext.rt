// The plaintext of a keystream block: clauses 5.4, 6.4, 7.4.
ghost use Rattle.std.specs.Prelude.{◌≡◌};
ghost use Rattle.tea.specs.Keystream.{tag, plaintext};

use words::{byte0, byte1, byte2, byte3};

// 'T', 'E', 'A', the digit, and the block's number j.
fn tag(digit: u8, j: u32) -> [u8; 8]
    ensures { result ≡ tag digit j }
{
    [
        b'T',
        b'E',
        b'A',
        digit,
        byte0(j),
        byte1(j),
        byte2(j),
        byte3(j),
    ]
}

// IVM, and then the tag.
pub fn plaintext(ivm: [u8; 24], digit: u8, j: u32) -> [u8; 32]
    ensures { result ≡ plaintext ivm digit j }
{
    let mut p = [0u8; 32];
    p[..24].copy_from_slice(&ivm);
    p[24..].copy_from_slice(&tag(digit, j));
    p
}
