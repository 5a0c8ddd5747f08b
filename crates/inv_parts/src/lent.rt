// For callers that hold a schedule as a plain slice.
ghost use Rattle.std.specs.Prelude.{◌≡◌, length, get_or};
ghost use Rattle.laws.specs.Lists.{tabulate};
ghost use Rattle.inv_parts.specs.Schedule.{mixed_back};

use crate::mix_schedule_back;

// Of a schedule of 120 words in a lent slice, round keys 1 to 13, each of eight words. The first and the last stay.
pub fn mix_back(w: &mut [u32])
    requires { length w.old ≡ 120 }
    ensures { w.new ≡ tabulate (λ i. mixed_back i (get_or w.old i 0)) 0 120 }
{
    let Some(words) = w.as_mut_array::<120>() else {
        unreachable!()
    };
    mix_schedule_back(words);
}
