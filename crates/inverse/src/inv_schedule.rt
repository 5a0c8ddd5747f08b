// The inverse's own key schedule: 120 words of 32 bits in a lent array.
ghost use Rattle.std.specs.Prelude.{◌≡◌, length};
ghost use Rattle.laws.specs.Lists.{tabulate};
ghost use Rattle.gf256.specs.Field.{s_boxes};
ghost use Rattle.inv_parts.specs.Schedule.{inv_key_word};

use gf256::SBox;

// Fills the inverse's schedule of a key, for the blocks to come.
pub fn fill_inv_schedule(w: &mut [u32; 120], key: [u8; 24], table: &SBox)
    ensures { w.new ≡ tabulate (inv_key_word key) 0 120 }
{
    schedule::fill_schedule(w, key, table);
    inv_parts::mix_schedule_back(w);
}

// The same for callers that hold the schedule as a plain slice, and the S-box as a plain table.
pub fn expand_inv_key(w: &mut [u32], key: [u8; 24], table: &[u8; 256])
    requires { (length w.old ≡ 120) × (table.now ≡ s_boxes) }
    ensures { w.new ≡ tabulate (inv_key_word key) 0 120 }
{
    let Some(words) = w.as_mut_array::<120>() else {
        unreachable!()
    };
    fill_inv_schedule(words, key, &SBox::of(*table));
}
