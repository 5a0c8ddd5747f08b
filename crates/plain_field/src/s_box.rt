// The S-box, computed: the proposal, 4.2.1.
ghost use Rattle.std.specs.Prelude.{◌≡◌};
ghost use Rattle.gf256.specs.Field.{turned, affine, s_box};

use crate::galois::inverse;

// The eight bits turned left by one place.
fn turned(b: u8) -> u8
    ensures { result ≡ turned b }
{
    b % 128 * 2 + b / 128
}

// The affine map: bit i of the result is bits i, i - 1, i - 2, i - 3 and i - 4 of b, summed, and bit i of 63.
fn affine(b: u8) -> u8
    ensures { result ≡ affine b }
{
    let b1 = turned(b);
    let b2 = turned(b1);
    let b3 = turned(b2);
    let b4 = turned(b3);
    b ^ (b1 ^ (b2 ^ (b3 ^ (b4 ^ 0x63))))
}

// First the inverse, then the affine map.
pub fn s_box(x: u8) -> u8
    ensures { result ≡ s_box x }
{
    affine(inverse(x))
}
