// The parts of a line of a damaged record sheet (document 02, [12]): its name and its value, without a CR at its end and without spaces
// beside the `=`. A line comes without the LF that ends it.
#![tactic(auto)]

ghost use Rattle.std.specs.Prelude.{◌≡◌};
ghost use Rattle.line_parts.specs.Line.{ends_with, leading, trailing, bare, before_equals, after_equals, has_equals, name_in, value_in, is_spaced};

use lines::index_of;

const CR: u8 = 13;

const SPACE: u8 = 32;

const EQUALS: u8 = 61;

// Is b the last byte of the text?
pub fn ends_with(s: &[u8], b: u8) -> bool
    ensures { result ≡ ends_with b s.now }
{
    s.ends_with(&[b])
}

// How many bytes b a text begins with.
pub fn leading(s: &[u8], b: u8) -> usize
    ensures { result ≡ leading b s.now }
{
    s.iter().take_while(|x| **x == b).count()
}

// How many bytes b a text ends with.
fn trailing(s: &[u8], b: u8) -> usize
    ensures { result ≡ trailing b s.now }
{
    s.iter().rev().take_while(|x| **x == b).count()
}

// The line without the CR before its LF.
fn bare(line: &[u8]) -> &[u8]
    ensures { result.now ≡ bare line.now }
{
    line.strip_suffix(&[CR]).unwrap_or(line)
}

// What stands before the first `=`, or the whole line where there is none.
fn before_equals(line: &[u8]) -> &[u8]
    ensures { result.now ≡ before_equals line.now }
{
    let whole = bare(line);
    let n = index_of(whole, EQUALS);
    &whole[..n]
}

// What stands after the first `=`, or nothing.
fn after_equals(line: &[u8]) -> &[u8]
    ensures { result.now ≡ after_equals line.now }
{
    let whole = bare(line);
    let n = index_of(whole, EQUALS);
    whole.get(n + 1..).unwrap_or(&[])
}

// Does a line have a `=`?
fn has_equals(line: &[u8]) -> bool
    ensures { result ≡ has_equals line.now }
{
    bare(line).contains(&EQUALS)
}

// The name of a line: nothing where it has no `=`.
pub fn name_in(line: &[u8]) -> &[u8]
    ensures { result.now ≡ name_in line.now }
{
    let before = before_equals(line);
    if !has_equals(line) {
        return &[];
    }
    let spaces = trailing(before, SPACE);
    &before[..before.len() - spaces]
}

// The value of a line.
pub fn value_in(line: &[u8]) -> &[u8]
    ensures { result.now ≡ value_in line.now }
{
    let after = after_equals(line);
    let spaces = leading(after, SPACE);
    &after[spaces..]
}

// Do spaces stand beside the `=`?
pub fn is_spaced(line: &[u8]) -> bool
    ensures { result ≡ is_spaced line.now }
{
    0 < trailing(before_equals(line), SPACE) || 0 < leading(after_equals(line), SPACE)
}
