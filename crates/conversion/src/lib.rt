// Does somebody else's conversion of records give no right more? (document 02, [11]) Reads both texts, and loads nothing.
#![tactic(auto)]

ghost use Rattle.std.specs.Prelude.{◌≡◌, ◌+◌, ◌^◌, ◌<◌, None, IfErr, IfSome};
ghost use Rattle.refusals.specs.Refused.{number};
ghost use Rattle.conversion_pairs.specs.Pairs.{pair_count};
ghost use Rattle.conversion_pairs.specs.Answers.{place_of};
ghost use Rattle.conversion.specs.Conversion.{checked_as, passes, naming, names_checked, rights_checked, conversion_checked};
ghost use Rattle.conversion.specs.Answers.{checked_of};

use conversion_pairs::{first_differing, first_misnaming, leaves_out, pair_count};
use gathering::gather;
use refusals::Refusal;
use slots::Slot;

// No text has more records, and so no list more pairs.
const MOST_PAIRS: usize = 32;

// A refusal, and the pair that it names, counted from 0, where it names one.
#[derive(Clone, Copy, Debug, PartialEq, Eq)]
pub struct Refused {
    pub refusal: Refusal,
    pub pair: Option<usize>,
}

impl Refused {
    // The place of the pair, counted from 1; 0 where none is named.
    pub fn place(self) -> usize
        requires { IfSome self.pair (λ i. i + 1 < 2 ^ 64) }
        ensures { result ≡ place_of self.pair }
    {
        match self.pair {
            Some(i) => i + 1,
            None => 0,
        }
    }
}

impl From<Refusal> for Refused {
    ghost from_gives = { λ refusal e. e ≡ record { refusal = refusal; pair = None } };

    fn from(refusal: Refusal) -> Refused {
        Refused {
            refusal,
            pair: None,
        }
    }
}

// Refuses the pair, where there is one.
fn refuse_pair(refusal: Refusal, pair: Option<usize>) -> Result<(), Refused>
    ensures checked { checked_of result ≡ naming (number refusal) (place_of pair) passes }
    ensures pair { IfErr result (λ e. e.pair ≡ pair) }
{
    match pair {
        Some(_) => Err(Refused { refusal, pair }),
        None => Ok(()),
    }
}

// 23: above 32 pairs; the first pair that names a number not there or already named on its side; an after record without a pair.
#[tactic(auto, unfolding(crate::specs::Conversion::names_checked))]
fn check_names(before: [Slot; 32], after: [Slot; 32], pairs: &[u64]) -> Result<(), Refused>
    ensures checked { checked_of result ≡ names_checked before after pairs.now }
    ensures within { IfErr result (λ e. IfSome e.pair (λ i. i < pair_count pairs.now)) }
{
    Refusal::PairListBad.when(MOST_PAIRS < pair_count(pairs))?;
    refuse_pair(Refusal::PairListBad, first_misnaming(before, after, pairs))?;
    Refusal::PairListBad.when(leaves_out(after, pairs))?;
    Ok(())
}

// 24: the first pair that widens or differs.
#[tactic(auto, unfolding(crate::specs::Conversion::rights_checked))]
fn check_rights(before: [Slot; 32], after: [Slot; 32], pairs: &[u64]) -> Result<(), Refused>
    ensures checked { checked_of result ≡ rights_checked before after pairs.now }
    ensures within { IfErr result (λ e. IfSome e.pair (λ i. i < pair_count pairs.now)) }
{
    refuse_pair(Refusal::PairDiffers, first_differing(before, after, pairs))
}

// The whole check: 22 where a text does not read or repeats a number, and then the pairs.
#[tactic(auto, unfolding(crate::specs::Conversion::conversion_checked, crate::specs::Conversion::pairs_checked))]
pub fn check(before: &[u8], after: &[u8], pairs: &[u64]) -> Result<(), Refused>
    ensures checked { checked_of result ≡ conversion_checked before.now after.now pairs.now }
    ensures within { IfErr result (λ e. IfSome e.pair (λ i. i < pair_count pairs.now)) }
{
    let from = gather(before).ok_or(Refusal::ConversionTextBad)?;
    let to = gather(after).ok_or(Refusal::ConversionTextBad)?;
    check_names(from, to, pairs)?;
    check_rights(from, to, pairs)
}

// For C: the refusal, with the place of its pair left in `place`.
#[unsafe(no_mangle)]
pub extern "C" fn card_converted<'a>(
    before: &'a [u8],
    after: &'a [u8],
    pairs: &'a [u64],
    place: &mut usize,
) -> u8
    ensures { checked_as result place.new ≡ conversion_checked before.now after.now pairs.now }
{
    match check(before, after, pairs) {
        Ok(()) => {
            *place = 0;
            refusals::DONE
        }
        Err(refused) => {
            *place = refused.place();
            refused.refusal.number()
        }
    }
}
