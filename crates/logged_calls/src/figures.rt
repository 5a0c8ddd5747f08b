// Where the figures of a month stand in their array: a row for each slot and direction, and one for all, each of calls, bits and blocks; then the
// number of lines; then the count of each refusal number.
ghost use Rattle.std.specs.Prelude.{◌≡◌, ◌≤◌};
ghost use Rattle.logged_calls.specs.Figures.{total_row, calls_at, bits_at, blocks_at, count_at};
ghost use Rattle.logged_calls.specs.Log.{largest_code};

// The row of all accepted calls.
pub const TOTAL_ROW: usize = 64;

// The place of the number of lines.
pub const LINES_AT: usize = 195;

// How many figures there are.
pub const FIGURES: usize = 223;

// The place of a row's calls.
pub fn calls_at(row: usize) -> usize
    requires { row ≤ total_row }
    ensures { result ≡ calls_at row }
{
    3 * row
}

// The place of a row's bits.
pub fn bits_at(row: usize) -> usize
    requires { row ≤ total_row }
    ensures { result ≡ bits_at row }
{
    calls_at(row) + 1
}

// The place of a row's blocks.
pub fn blocks_at(row: usize) -> usize
    requires { row ≤ total_row }
    ensures { result ≡ blocks_at row }
{
    calls_at(row) + 2
}

// The place of a refusal number's count.
pub fn count_at(code: usize) -> usize
    requires { code ≤ largest_code }
    ensures { result ≡ count_at code }
{
    LINES_AT + code
}
