// For callers that hold a schedule as a plain slice, and the S-box as a plain table.
ghost use Rattle.std.specs.Prelude.{◌≡◌, length};
ghost use Rattle.laws.specs.Lists.{tabulate};
ghost use Rattle.gf256.specs.Field.{s_boxes};
ghost use Rattle.schedule.specs.Schedule.{key_word};

use crate::fill_schedule;
use gf256::SBox;

// Fills the schedule of a key, for the blocks to come.
pub fn expand_key(w: &mut [u32], key: [u8; 24], table: &[u8; 256])
    requires { (length w.old ≡ 120) × (table.now ≡ s_boxes) }
    ensures { w.new ≡ tabulate (key_word key) 0 120 }
{
    let Some(words) = w.as_mut_array::<120>() else {
        unreachable!()
    };
    fill_schedule(words, key, &SBox::of(*table));
}
