// The expansion of the initial value: clauses 5.2, 6.2, 7.2.
ghost use Rattle.std.specs.Prelude.{◌≡◌};
ghost use Rattle.laws.specs.Lists.{tabulate, Filled};
ghost use Rattle.tea.specs.Mixing.{expanded_byte, mixed_value};

// b[0] to b[9], and zeros.
fn first_bytes(iv: [u8; 10]) -> [u8; 44]
    ensures { Filled (expanded_byte iv) 0 44 result 10 }
{
    let mut b = [0u8; 44];
    b[..10].copy_from_slice(&iv);
    b
}

// b[0] to b[43]. Each byte waits for the one before it: so that stands in a local, and the sum of the other two is made a turn ahead.
fn mixed_bytes(iv: [u8; 10]) -> [u8; 44]
    ensures { result ≡ tabulate (expanded_byte iv) 0 44 }
{
    let mut b = first_bytes(iv);
    let mut last = iv[9];
    let mut two = iv[0] ^ iv[1];
    for i in 10..44 {
        let x = two ^ gf256::times_d7(last);
        b[i] = x;
        two = b[i - 9] ^ b[i - 8];
        last = x;
    }
    b
}

// IVX.
pub fn mixed_value(iv: [u8; 10]) -> [u8; 24]
    ensures { result ≡ mixed_value iv }
{
    let b = mixed_bytes(iv);
    let mut ivx = [0u8; 24];
    ivx.copy_from_slice(&b[20..]);
    ivx
}
