// The lines of a text: the line and the column of a place, and a line's parts, which single spaces separate.
#![tactic(auto)]

ghost use Rattle.std.specs.Prelude.{◌≡◌, ◌≤◌, length};
ghost use Rattle.lines.specs.Line.{index_of, piece_length, after_spaces, part, line_of, column_of};

// The place of the first byte b, or the length where there is none.
pub fn index_of(s: &[u8], b: u8) -> usize
    ensures { result ≡ index_of b s.now }
{
    s.iter().position(|&x| x == b).unwrap_or(s.len())
}

// How many bytes the first piece of a text takes, with the byte b that ends it. The last piece may lack it.
#[tactic(auto, unfolding(crate::specs::Line::piece_length))]
pub fn piece_length(s: &[u8], b: u8) -> usize
    ensures { result ≡ piece_length b s.now }
{
    let end = index_of(s, b);
    if end == s.len() { end } else { end + 1 }
}

// What follows k spaces: nothing, where there are fewer.
pub fn after_spaces(line: &[u8], k: usize) -> &[u8]
    ensures { result.now ≡ after_spaces k line.now }
{
    let mut rest = line;
    for _ in 0..k {
        rest = &rest[piece_length(rest, b' ')..];
    }
    rest
}

// Part k of a line, counted from 0.
#[tactic(auto, unfolding(crate::specs::Line::part))]
pub fn part(line: &[u8], k: usize) -> &[u8]
    ensures { result.now ≡ part k line.now }
{
    let rest = after_spaces(line, k);
    &rest[..index_of(rest, b' ')]
}

// The line in which a place lies, counted from 1.
pub fn line_of(text: &[u8], place: usize) -> usize
    requires { place ≤ length text.now }
    ensures { result ≡ line_of text.now place }
{
    text[..place].iter().filter(|&&b| b == b'\n').count() + 1
}

// The column of a place in its line, counted from 1.
pub fn column_of(text: &[u8], place: usize) -> usize
    requires { place ≤ length text.now }
    ensures { result ≡ column_of text.now place }
{
    let since_end = text[..place].iter().rev().take_while(|&&b| b != b'\n');
    since_end.count() + 1
}
