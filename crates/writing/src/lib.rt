// Writers of text: given bytes, decimal and hex digits, lines. Each puts a text into the buffer from a place on, and answers with the place at which it ends.
#![tactic(auto)]

ghost use Rattle.std.specs.Prelude.{◌≡◌, List, [], ◌∷◌, ◌++◌, ℕ, ◌<◌, length};
ghost use Rattle.writing.specs.Text.{lf, digits, hex_digit, hex_text};
ghost use Rattle.writing.specs.Writing.{Room, Put};

// The given bytes.
pub fn put_bytes<'a>(buffer: &'a mut [u8], at: usize, bytes: &'a [u8]) -> usize
    requires { Room buffer.old at bytes.now }
    ensures { Put buffer.old at bytes.now buffer.new result }
{
    let mut end = at;
    for &b in bytes {
        buffer[end] = b;
        end += 1;
    }
    end
}

// How many digits a number has.
pub fn digit_count(n: u64) -> usize
    ensures { result ≡ length (digits n) }
{
    if n < 10 {
        return 1;
    }
    n.ilog10() as usize + 1
}

// The digits of a number, the last one first.
pub fn put_digits(buffer: &mut [u8], at: usize, n: u64) -> usize
    requires { Room buffer.old at (digits n) }
    ensures { Put buffer.old at (digits n) buffer.new result }
{
    let end = at + digit_count(n);
    let mut left = n;
    for i in (at + 1..end).rev() {
        buffer[i] = b'0' + (left % 10) as u8;
        left /= 10;
    }
    buffer[at] = b'0' + left as u8;
    end
}

// A value that is put as a text.
pub trait Shown {
    ghost shown: { Self → List ℕ };

    fn put(self, buffer: &mut [u8], at: usize) -> usize
        requires { Room buffer.old at (shown self) }
        ensures { Put buffer.old at (shown self) buffer.new result };
}

// A number by its digits.
impl Shown for u64 {
    ghost shown = { digits };

    fn put(self, buffer: &mut [u8], at: usize) -> usize {
        put_digits(buffer, at, self)
    }
}

// A word by its bytes.
impl Shown for [u8; 4] {
    ghost shown = { λ word. word };

    fn put(self, buffer: &mut [u8], at: usize) -> usize {
        put_bytes(buffer, at, &self)
    }
}

// A name and a value.
pub fn put_item<'a, V: Shown>(buffer: &'a mut [u8], at: usize, name: &'a [u8], value: V) -> usize
    requires { Room buffer.old at (name.now ++ V.shown value) }
    ensures { Put buffer.old at (name.now ++ V.shown value) buffer.new result }
{
    let named = put_bytes(buffer, at, name);
    value.put(buffer, named)
}

// A line with a value.
pub fn put_line<'a, V: Shown>(buffer: &'a mut [u8], at: usize, name: &'a [u8], value: V) -> usize
    requires { Room buffer.old at (name.now ++ (V.shown value ++ (lf ∷ []))) }
    ensures { Put buffer.old at (name.now ++ (V.shown value ++ (lf ∷ []))) buffer.new result }
{
    let end = put_item(buffer, at, name, value);
    put_bytes(buffer, end, b"\n")
}

#[tactic(auto, unfolding(crate::specs::Text::hex_digit))]
fn hex_digit(d: u8) -> u8
    requires { d < 16 }
    ensures { result ≡ hex_digit d }
{
    if d < 10 { b'0' + d } else { b'a' + (d - 10) }
}

// A byte by two hex digits.
#[tactic(auto, unfolding(crate::specs::Text::hex_text))]
fn put_byte(buffer: &mut [u8], at: usize, b: u8) -> usize
    requires { Room buffer.old at (hex_text (b ∷ [])) }
    ensures { Put buffer.old at (hex_text (b ∷ [])) buffer.new result }
{
    buffer[at] = hex_digit(b / 16);
    buffer[at + 1] = hex_digit(b % 16);
    at + 2
}

// Bytes by two hex digits each.
pub fn put_hex<'a>(buffer: &'a mut [u8], at: usize, bytes: &'a [u8]) -> usize
    requires { Room buffer.old at (hex_text bytes.now) }
    ensures { Put buffer.old at (hex_text bytes.now) buffer.new result }
{
    let mut end = at;
    for &b in bytes {
        end = put_byte(buffer, end, b);
    }
    end
}
