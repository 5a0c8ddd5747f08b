// The initial value mixed: clauses 5.2, 6.2, 7.2. No byte is kept: each asks for those that its rule names.
#![tactic(auto)]

ghost use Rattle.std.specs.Prelude.{◌≡◌, ◌-◌, ◌<◌, ◌≤◌};
ghost use Rattle.gf256.specs.Field.{times};
ghost use Rattle.tea.specs.Mixing.{expanded_byte};

// b[i]: the first ten are the initial value's.
#[cycle(byte_product)]
pub fn byte(iv: [u8; 10], i: usize) -> u8
    requires { i < 44 }
    ensures { result ≡ expanded_byte iv i }
{
    if i < 10 {
        return iv[i];
    }
    byte(iv, i - 10) ^ byte(iv, i - 9) ^ product(iv, i)
}

// The product in the rule of b[i]: z^7 + z^6 + z^4 + z^2 + z + 1, which is d7, times b[i - 1].
#[cycle(byte_product)]
fn product(iv: [u8; 10], i: usize) -> u8
    requires { (1 ≤ i) × (i < 44) }
    ensures { result ≡ times 0xd7 (expanded_byte iv (i - 1)) }
{
    plain_field::galois::times(0xd7, byte(iv, i - 1))
}
