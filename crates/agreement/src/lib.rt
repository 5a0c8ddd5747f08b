// When a record stands for another without a right more (document 02, [11]).
#![tactic(auto)]

ghost use Rattle.std.specs.Prelude.{◌≡◌};
ghost use Rattle.agreement.specs.Agreement.{same_fields, same_key, agrees};

use fields::Fields;
use rights::lies_within;
use slots::Slot;

// Every field but the use.
#[tactic(auto, unfolding(crate::specs::Agreement::same_fields))]
fn same_fields(f: Fields, g: Fields) -> bool
    ensures { result ≡ same_fields f g }
{
    Fields {
        usage: g.usage,
        ..f
    } == g
}

// Each byte is compared, whatever the bytes before it are.
#[tactic(auto, unfolding(crate::specs::Agreement::same_bytes))]
fn same_key(a: [u8; 24], b: [u8; 24]) -> bool
    ensures { result ≡ same_key a b }
{
    let mut same = true;
    for (x, y) in a.iter().zip(&b) {
        same &= x == y;
    }
    same
}

// The same key and fields, with a use within the use before.
#[tactic(auto, unfolding(crate::specs::Agreement::agrees))]
pub fn agrees(before: Slot, after: Slot) -> bool
    ensures { result ≡ agrees before after }
{
    same_fields(before.fields, after.fields)
        && same_key(before.key, after.key)
        && lies_within(after.fields.usage as u64, before.fields.usage)
}
