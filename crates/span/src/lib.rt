// Runs of bits in a buffer: a run of a block's bits xored in a byte at a time, and the front zeroed.
// Bit 0 of a byte is its most significant.
#![tactic(auto)]

ghost use Rattle.std.specs.Prelude.{[], ◌∷◌, ◌≡◌, ◌<◌, ◌≤◌, ◌+◌, ◌-◌, ◌*◌, ◌/◌, ◌%◌, ◌^◌, length};
ghost use Rattle.std.specs.Int.Bits.{bit_xor};
ghost use Rattle.laws.specs.Bits.{bit_at, byte_of_bits};
ghost use Rattle.span.specs.Span.{xored, zeroed, framed};

// The longest buffer of a call, in bytes.
pub const LONGEST_BUFFER: usize = 8192;

// The most keystream of a call, in bits, with those that it skips.
pub const LONGEST_STREAM: usize = 8288;

// The last d bits of b.
fn low_bits(b: u8, d: usize) -> u8
    requires { d ≤ 8 }
    ensures { result ≡ b % 2 ^ d }
{
    ((b as u32) % (1u32 << d)) as u8
}

// b without its first d bits.
fn first_off(b: u8, d: usize) -> u8
    requires { d ≤ 8 }
    ensures { result ≡ b % 2 ^ (8 - d) }
{
    low_bits(b, 8 - d)
}

// b without its last d bits.
fn last_off(b: u8, d: usize) -> u8
    requires { d ≤ 8 }
    ensures { result ≡ bit_xor b (b % 2 ^ d) }
{
    b ^ low_bits(b, d)
}

// Eight bits that start at bit o of the first of two bytes. Each byte is shifted by itself, and what comes of it is a byte only after the xor: with both in
// one number, or a byte sooner, the loop that the compiler makes is as fast, and leaves more of a block in registers.
fn eight(a: u8, b: u8, o: u32) -> u32
    requires { o < 8 }
    ensures { result ≡ byte_of_bits (λ t. bit_at (a ∷ b ∷ []) (o + t)) }
{
    ((a as u32) << o) % 256 + ((b as u32) << o) / 256
}

// The block with a byte 0 before it, and two after it.
fn padded(k: [u8; 32]) -> [u8; 35]
    ensures { result ≡ framed k }
{
    let mut z = [0u8; 35];
    z[1..33].copy_from_slice(&k);
    z
}

// Eight bits from bit i on become 0.
fn clear_eight(z: &mut [u8], i: usize)
    requires { i / 8 + 1 < length z.old }
    ensures { z.new ≡ zeroed z.old i 8 }
{
    let q = i / 8;
    let o = i % 8;
    let a = z[q];
    let b = z[q + 1];
    z[q] = last_off(a, 8 - o);
    z[q + 1] = first_off(b, o);
}

// The padded block, with eight bits 0 on either side of the run of n bits from bit `from` of the block on.
fn run_alone(k: [u8; 32], from: usize, n: usize) -> [u8; 35]
    requires { from + n ≤ 256 }
    ensures { result ≡ zeroed (zeroed (framed k) from 8) (from + n + 8) 8 }
{
    let mut z = padded(k);
    clear_eight(&mut z, from);
    clear_eight(&mut z, from + n + 8);
    z
}

// Bit j of the first count bytes becomes itself xor bit 8 * d + o + j of z.
fn xor_shifted(s: &mut [u8], z: [u8; 35], d: usize, o: u32, count: usize)
    requires { (count ≤ length s.old) × (d + count ≤ 34) × (o < 8) }
    ensures { s.new ≡ xored s.old (bit_at z) 0 (8 * d + o) (8 * count) }
{
    for y in 0..count {
        s[y] = (eight(z[d + y], z[d + y + 1], o) ^ (s[y] as u32)) as u8;
    }
}

// What xor_block does, where the run starts in the first byte of s. The loop meets at most seven bits on either side of the run, and they are 0.
fn xor_part(s: &mut [u8], k: [u8; 32], at: usize, from: usize, n: usize)
    requires { (at < 8) × (at + n ≤ 8 * length s.old) × (from + n ≤ 256) }
    ensures { s.new ≡ xored s.old (bit_at k) at from n }
{
    let e = from + 8 - at;
    let count = (at + n + 7) / 8;
    let z = run_alone(k, from, n);
    xor_shifted(s, z, e / 8, (e % 8) as u32, count);
}

// Bit at + i of s becomes itself xor bit from + i of k, for i below n; every other bit stays.
pub fn xor_block(s: &mut [u8], k: [u8; 32], at: usize, from: usize, n: usize)
    requires { (at + n ≤ 8 * length s.old) × (from + n ≤ 256) }
    ensures { s.new ≡ xored s.old (bit_at k) at from n }
{
    let a = at / 8;
    let off = at % 8;
    xor_part(&mut s[a..], k, off, from, n);
}

// Bits 0 to n - 1 of s become 0; every other bit stays.
pub fn clear_front(s: &mut [u8], n: usize)
    requires { n ≤ 8 * length s.old }
    ensures { s.new ≡ zeroed s.old 0 n }
{
    let q = n / 8;
    let o = n % 8;
    s[..q].fill(0);
    if o == 0 {
        return;
    }
    s[q] = first_off(s[q], o);
}
