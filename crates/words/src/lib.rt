// Words of 32 bits and their four bytes, the first highest. They are by arithmetic, and not by std's `from_be_bytes` and `to_be_bytes`: through an
// array of four bytes the compiler makes another loop of a round, and a block takes three times as long.
#![tactic(auto)]

ghost use Rattle.std.specs.Prelude.{◌≡◌};
ghost use Rattle.words.specs.Words.{join, byte_of};

pub fn join_bytes(a: u8, b: u8, c: u8, d: u8) -> u32
    ensures { result ≡ join a b c d }
{
    (a as u32) * 16777216 + (b as u32) * 65536 + (c as u32) * 256 + (d as u32)
}

pub fn byte0(w: u32) -> u8
    ensures { result ≡ byte_of w 0 }
{
    (w / 16777216) as u8
}

pub fn byte1(w: u32) -> u8
    ensures { result ≡ byte_of w 1 }
{
    (w / 65536 % 256) as u8
}

pub fn byte2(w: u32) -> u8
    ensures { result ≡ byte_of w 2 }
{
    (w / 256 % 256) as u8
}

pub fn byte3(w: u32) -> u8
    ensures { result ≡ byte_of w 3 }
{
    (w % 256) as u8
}
