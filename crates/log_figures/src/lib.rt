// The figures that the calls of a log add up to, in a lent array (document 02, [13]).
#![tactic(auto)]

ghost use Rattle.std.specs.Prelude.{◌≡◌, ◌<◌, ◌≤◌, true};
ghost use Rattle.logged_calls.specs.Log.{is_sound};
ghost use Rattle.logged_calls.specs.Figures.{row_of, plus, into_row, added_accepted, added_refused, added};

use logged_calls::Call;
use logged_calls::figures::{LINES_AT, TOTAL_ROW, bits_at, blocks_at, calls_at, count_at};

// One figure more by n.
#[tactic(auto, unfolding(logged_calls::specs::Figures::plus))]
fn plus(figures: &mut [u64], i: usize, n: u64)
    ensures { figures.new ≡ plus figures.old i n }
{
    if i < figures.len() {
        figures[i] = figures[i].wrapping_add(n);
    }
}

// A call more in a row.
#[tactic(auto, unfolding(logged_calls::specs::Figures::into_row))]
fn into_row(figures: &mut [u64], row: usize, bits: u64, blocks: u64)
    requires { row < 65 }
    ensures { figures.new ≡ into_row figures.old row bits blocks }
{
    plus(figures, calls_at(row), 1);
    plus(figures, bits_at(row), bits);
    plus(figures, blocks_at(row), blocks);
}

// The row of a slot and a direction.
fn row_of(slot: u64, direction: u64) -> usize
    requires { (1 ≤ slot) × (slot ≤ 32) × (1 ≤ direction) × (direction ≤ 2) }
    ensures { (result ≡ row_of slot direction) × (result < 64) }
{
    (2 * (slot - 1) + (direction - 1)) as usize
}

// An accepted call, in its row and among all.
#[tactic(auto, unfolding(logged_calls::specs::Figures::added_accepted))]
fn add_accepted(figures: &mut [u64], row: usize, bits: u64, blocks: u64)
    requires { row < 64 }
    ensures { figures.new ≡ added_accepted figures.old row bits blocks }
{
    into_row(figures, row, bits, blocks);
    into_row(figures, TOTAL_ROW, bits, blocks);
    plus(figures, LINES_AT, 1);
}

// A refused call, by its number.
#[tactic(auto, unfolding(logged_calls::specs::Figures::added_refused))]
fn add_refused(figures: &mut [u64], code: u64)
    requires { code ≤ 27 }
    ensures { figures.new ≡ added_refused figures.old code }
{
    plus(figures, count_at(code as usize), 1);
    plus(figures, LINES_AT, 1);
}

// A line more.
#[tactic(auto, unfolding(logged_calls::specs::Figures::added))]
pub fn add(figures: &mut [u64], c: Call)
    requires { is_sound c ≡ true }
    ensures { figures.new ≡ added figures.old c }
{
    if c.code == 0 {
        add_accepted(figures, row_of(c.slot, c.direction), c.bits, c.blocks);
    } else {
        add_refused(figures, c.code);
    }
}
