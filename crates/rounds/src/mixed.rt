// A mixed column by the lent table of products.
ghost use Rattle.std.specs.Prelude.{◌≡◌, ◌+◌, ◌<◌};
ghost use Rattle.gf256.specs.Field.{s_box};
ghost use Rattle.products.specs.Products.{share};
ghost use Rattle.words.specs.Words.{join, word_bytes};
ghost use Rattle.rounds.specs.Columns.{mixed_column};

use products::ProductTable;
use words::join_bytes;

// What byte b of row r adds to its mixed column. The compiler reads the four bytes at once, as a word.
fn in_row(mixes: &ProductTable, b: u8, r: usize) -> u32
    requires { r < 4 }
    ensures { result ≡ join (share (s_box b) (r + 3)) (share (s_box b) (r + 2)) (share (s_box b) (r + 1)) (share (s_box b) r) }
{
    join_bytes(
        mixes.share(b, r + 3),
        mixes.share(b, r + 2),
        mixes.share(b, r + 1),
        mixes.share(b, r),
    )
}

// The mixed column of the bytes a, b, c, d of rows 0 to 3, each through the S-box.
pub fn mixed_word(mixes: &ProductTable, a: u8, b: u8, c: u8, d: u8) -> u32
    ensures { word_bytes result ≡ mixed_column (s_box a) (s_box b) (s_box c) (s_box d) }
{
    in_row(mixes, a, 0) ^ in_row(mixes, b, 1) ^ in_row(mixes, c, 2) ^ in_row(mixes, d, 3)
}
