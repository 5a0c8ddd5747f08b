// The checker of conversions, which this library offers to C: the call of the same name in `conversion`, under the same contract.
#![tactic(auto)]

ghost use Rattle.std.specs.Prelude.{◌≡◌};
ghost use Rattle.conversion.specs.Conversion.{checked_as, conversion_checked};

#[unsafe(no_mangle)]
pub extern "C" fn card_converted<'a>(
    before: &'a [u8],
    after: &'a [u8],
    pairs: &'a [u64],
    place: &mut usize,
) -> u8
    ensures { checked_as result place.new ≡ conversion_checked before.now after.now pairs.now }
{
    conversion::card_converted(before, after, pairs, place)
}
