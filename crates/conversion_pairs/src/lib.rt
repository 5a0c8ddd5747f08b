// The pairs of a conversion, and the faults of each (document 02, [11]): a flat list of before number, after number, and so on. One that is
// missing counts as 0, which is no record's number.
#![tactic(auto)]

ghost use Rattle.std.specs.Prelude.{◌≡◌, ◌<◌, ◌≤◌, IfSome};
ghost use Rattle.conversion_pairs.specs.Answers.{side_of, place_of};
ghost use Rattle.conversion_pairs.specs.Pairs.{pair_count, number_on, named_on, is_there, misnames_on, misnames, differs, first_misnaming, first_differing, left_out, leaves_out};

use agreement::agrees;
use slots::{Slot, is_filled};
use table_calls::slot_or_empty;

// Where a number of a pair stands.
#[derive(Clone, Copy)]
enum Side {
    Before,
    After,
}

pub fn pair_count(pairs: &[u64]) -> usize
    ensures { result ≡ pair_count pairs.now }
{
    pairs.len() / 2 + pairs.len() % 2
}

// The number of pair i on a side.
fn number_on(side: Side, pairs: &[u64], i: usize) -> u64
    requires { i < pair_count pairs.now }
    ensures { result ≡ number_on (side_of side) pairs.now i }
{
    pairs.get(2 * i + side as usize).copied().unwrap_or(0)
}

// Does one of the first `count` pairs name the number on a side?
fn is_named(side: Side, pairs: &[u64], n: u64, count: usize) -> bool
    requires { count ≤ pair_count pairs.now }
    ensures { result ≡ named_on (side_of side) pairs.now n count }
{
    (0..count).any(|i| number_on(side, pairs, i) == n)
}

fn is_there(table: [Slot; 32], n: u64) -> bool
    ensures { result ≡ is_there table n }
{
    is_filled(slot_or_empty(table, n))
}

// The number of pair i on a side is not there, or an earlier pair names it on that side.
#[tactic(auto, unfolding(crate::specs::Pairs::misnames_on))]
fn misnames_on(side: Side, table: [Slot; 32], pairs: &[u64], i: usize) -> bool
    requires { i < pair_count pairs.now }
    ensures { result ≡ misnames_on (side_of side) table pairs.now i }
{
    let n = number_on(side, pairs, i);
    !is_there(table, n) || is_named(side, pairs, n, i)
}

#[tactic(auto, unfolding(crate::specs::Pairs::misnames))]
fn misnames(before: [Slot; 32], after: [Slot; 32], pairs: &[u64], i: usize) -> bool
    requires { i < pair_count pairs.now }
    ensures { result ≡ misnames before after pairs.now i }
{
    misnames_on(Side::Before, before, pairs, i) || misnames_on(Side::After, after, pairs, i)
}

#[tactic(auto, unfolding(crate::specs::Pairs::differs))]
fn differs(before: [Slot; 32], after: [Slot; 32], pairs: &[u64], i: usize) -> bool
    requires { i < pair_count pairs.now }
    ensures { result ≡ differs before after pairs.now i }
{
    let from = number_on(Side::Before, pairs, i);
    let to = number_on(Side::After, pairs, i);
    !agrees(slot_or_empty(before, from), slot_or_empty(after, to))
}

// The first pair that names a number not there or already named on its side.
pub fn first_misnaming(before: [Slot; 32], after: [Slot; 32], pairs: &[u64]) -> Option<usize>
    ensures first { place_of result ≡ first_misnaming before after pairs.now }
    ensures within { IfSome result (λ i. i < pair_count pairs.now) }
{
    (0..pair_count(pairs)).position(|i| misnames(before, after, pairs, i))
}

// The first pair that widens or differs.
pub fn first_differing(before: [Slot; 32], after: [Slot; 32], pairs: &[u64]) -> Option<usize>
    ensures first { place_of result ≡ first_differing before after pairs.now }
    ensures within { IfSome result (λ i. i < pair_count pairs.now) }
{
    (0..pair_count(pairs)).position(|i| differs(before, after, pairs, i))
}

// Is the number an after record's, and does no pair name it?
#[tactic(auto, unfolding(crate::specs::Pairs::left_out))]
fn is_left_out(after: [Slot; 32], pairs: &[u64], n: u64) -> bool
    ensures { result ≡ left_out after pairs.now n }
{
    is_there(after, n) && !is_named(Side::After, pairs, n, pair_count(pairs))
}

// Is there an after record that no pair names? Its number is one of 1 to 32.
pub fn leaves_out(after: [Slot; 32], pairs: &[u64]) -> bool
    ensures { result ≡ leaves_out after pairs.now 32 }
{
    (1..33).any(|n| is_left_out(after, pairs, n))
}
