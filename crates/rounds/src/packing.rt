// A state as eight words, a column each: between two rounds a word stands in a register, where four bytes would not.
ghost use Rattle.std.specs.Prelude.{◌≡◌, [], ◌∷◌, length};
ghost use Rattle.words.specs.Words.{word_bytes};
ghost use Rattle.round_steps.specs.Steps.{add_round_key};
ghost use Rattle.rounds.specs.Columns.{of_words};

use words::{byte0, byte1, byte2, byte3, join_bytes};

fn column_word(a: u8, b: u8, c: u8, d: u8) -> u32
    ensures { word_bytes result ≡ a ∷ b ∷ c ∷ d ∷ [] }
{
    join_bytes(a, b, c, d)
}

pub fn to_words(s: [[u8; 8]; 4]) -> [u32; 8]
    ensures { of_words result ≡ s }
{
    let mut x = [0u32; 8];
    for c in 0..8 {
        x[c] = column_word(s[0][c], s[1][c], s[2][c], s[3][c]);
    }
    x
}

// The same with the initial key: word by word, where `add_key_of_round` would go by bytes.
pub fn first_keyed_words(s: [[u8; 8]; 4], w: &[u32; 120]) -> [u32; 8]
    ensures { of_words result ≡ add_round_key w.now 0 s }
{
    let mut x = [0u32; 8];
    for c in 0..8 {
        x[c] = column_word(s[0][c], s[1][c], s[2][c], s[3][c]) ^ w[c];
    }
    x
}

// The same for callers that hold a schedule as a plain slice.
pub fn keyed_words(s: [[u8; 8]; 4], w: &[u32]) -> [u32; 8]
    requires { length w.now ≡ 120 }
    ensures { of_words result ≡ add_round_key w.now 0 s }
{
    let Some(words) = w.as_array::<120>() else {
        unreachable!()
    };
    first_keyed_words(s, words)
}

pub fn from_words(x: [u32; 8]) -> [[u8; 8]; 4]
    ensures { result ≡ of_words x }
{
    let mut t = [[0u8; 8]; 4];
    for c in 0..8 {
        let k = x[c];
        t[0][c] = byte0(k);
        t[1][c] = byte1(k);
        t[2][c] = byte2(k);
        t[3][c] = byte3(k);
    }
    t
}
