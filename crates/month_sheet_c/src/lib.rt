// The month sheet of a whole log, which this library offers to the fuzzer: the call of the same name in `month_sheet`, under the same contract.
#![tactic(auto)]

ghost use Rattle.std.specs.Prelude.{◌≡◌};
ghost use Rattle.month_sheet.specs.Sheet.{whole_log, printed_length, printed_buffer};

#[unsafe(no_mangle)]
pub extern "C" fn month_of_log(log: &[u8], buffer: &mut [u8]) -> usize
    ensures { (result ≡ printed_length (whole_log log.now) buffer.old)
        × (buffer.new ≡ printed_buffer (whole_log log.now) buffer.old) }
{
    month_sheet::month_of_log(log, buffer)
}
