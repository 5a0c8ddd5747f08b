// The lines of a damaged record sheet (document 02, [12]): which names they have, in which order, and when that is refused with 25.
#![tactic(auto)]

ghost use Rattle.std.specs.Prelude.{◌≡◌, eqb};
ghost use Rattle.std.specs.Iterator.{YieldsFirstRef, item_count};
ghost use Rattle.laws.specs.Choice.{pick};
ghost use Rattle.line_names.specs.Names.{has_name, number_of, number_found};
ghost use Rattle.sheet_faults.specs.Sheet.{lines_of, times_named, is_form_two, value_named, any_fault, in_order_from, names_right, sheet_bad};

use line_faults::{Fault, has_fault};
use line_names::{NAMES, Name, is_named, place_of};
use line_parts::{ends_with, value_in};
use lines::{index_of, piece_length};

// The bytes of a text, at most.
pub const MOST: usize = 4096;

const LF: u8 = b'\n';

// The lines of a text, each without the LF that ends it. (What follows the last LF is a line too.)
#[derive(Drop)]
struct Lines<'a> {
    rest: &'a [u8],
}

impl<'a> Iterator for Lines<'a> {
    type Item = &'a [u8];

    ghost next_gives = { YieldsFirstRef (λ s. lines_of s.rest.now) };

    ghost remaining = { item_count (λ s. lines_of s.rest.now) };

    fn next(&mut self) -> Option<&'a [u8]> {
        let rest = self.rest;
        if rest.is_empty() {
            return None;
        }
        self.rest = &rest[piece_length(rest, LF)..];
        Some(&rest[..index_of(rest, LF)])
    }
}

// How many lines have a name, or none at `None`.
fn times_named(text: &[u8], name: Option<Name>) -> usize
    ensures { result ≡ times_named (number_found name) (lines_of text.now) }
{
    Lines { rest: text }
        .filter(|line| is_named(line, name))
        .count()
}

// A `form` line, good or bad, means form 2.
#[tactic(auto, unfolding(crate::specs::Sheet::is_form_two))]
pub fn is_form_two(text: &[u8]) -> bool
    ensures { result ≡ is_form_two (lines_of text.now) }
{
    0 < times_named(text, Some(Name::Form))
}

// The value of the first line of a name, or nothing.
pub fn value_named(text: &[u8], name: Name) -> &[u8]
    ensures { result.now ≡ value_named (number_of name) (lines_of text.now) }
{
    Lines { rest: text }
        .find(|line| is_named(line, Some(name)))
        .map_or(&[], |line| value_in(line))
}

// Does some line have a fault?
pub fn any_fault(text: &[u8], fault: Fault) -> bool
    ensures { result ≡ any_fault fault (lines_of text.now) }
{
    Lines { rest: text }.any(|line| has_fault(line, fault))
}

// Do the names stand in the form's order?
pub fn in_order(text: &[u8]) -> bool
    ensures { result ≡ in_order_from 0 (lines_of text.now) }
{
    let mut least = 0;
    for line in (Lines { rest: text }) {
        let place = place_of(line);
        if place < least {
            return false;
        }
        least = place + 1;
    }
    true
}

// Does a name that the form has stand in one line, or any other in none?
fn is_named_right(text: &[u8], two: bool, name: Name) -> bool
    ensures { result ≡ eqb (times_named (number_of name) (lines_of text.now)) (pick (has_name two (number_of name)) 1 0) }
{
    times_named(text, Some(name)) == usize::from(name.is_in(two))
}

// Is no name missing, doubled, or unknown for the form?
fn names_right(text: &[u8]) -> bool
    ensures { result ≡ names_right (lines_of text.now) }
{
    let two = is_form_two(text);
    NAMES.iter().all(|name| is_named_right(text, two, *name)) && times_named(text, None) == 0
}

// Is a text refused with 25?
#[tactic(auto, unfolding(crate::specs::Sheet::sheet_bad))]
pub fn sheet_bad(text: &[u8]) -> bool
    ensures { result ≡ sheet_bad text.now }
{
    MOST < text.len() || !ends_with(text, LF) || !names_right(text)
}
