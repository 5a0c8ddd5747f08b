// The mending of a damaged record, which this library offers to C: the call of the same name in `mending`, under the same contract.
#![tactic(auto)]

ghost use Rattle.std.specs.Prelude.{◌≡◌};
ghost use Rattle.mending.specs.Answer.{mend_as, mend_out};

#[unsafe(no_mangle)]
pub extern "C" fn card_mend(text: &[u8], out: &mut [u8], written: &mut usize) -> u8
    ensures { mend_as result written.new out.new ≡ mend_out text.now out.old }
{
    mending::card_mend(text, out, written)
}
