// What a use allows, and what a move may make of it (document 01, "Slots and rights"). A use and a direction stay numbers, as the definitions and C
// have them: an enum would be turned back to its number in each contract.
#![tactic(auto)]

ghost use Rattle.std.specs.Prelude.{◌≡◌};
ghost use Rattle.rights.specs.Rights.{is_direction, includes, within, is_asked_use, moved_use, stays_within, may_move};

pub fn is_direction(d: u64) -> bool
    ensures { result ≡ is_direction d }
{
    1 <= d && d <= 2
}

pub fn use_includes(usage: u8, code: u64) -> bool
    ensures { result ≡ includes usage code }
{
    usage == 3 || usage as u64 == code
}

pub fn lies_within(usage: u64, present: u8) -> bool
    ensures { result ≡ within usage present }
{
    fields::is_use(usage) && use_includes(present, usage)
}

pub fn moved_use(present: u8, asked: u64) -> u64
    ensures { result ≡ moved_use present asked }
{
    if asked == 0 { present as u64 } else { asked }
}

pub fn stays_within(present: u8, asked: u64) -> bool
    ensures { result ≡ stays_within present asked }
{
    lies_within(moved_use(present, asked), present)
}

// Asked 0 keeps send or receive alone: both has to be asked for.
pub fn may_move(present: u8, asked: u64) -> bool
    ensures { result ≡ may_move present asked }
{
    stays_within(present, asked) && !(asked == 0 && present == 3)
}

// 0 asks for no other use.
pub fn is_asked_use(asked: u64) -> bool
    ensures { result ≡ is_asked_use asked }
{
    asked <= 3
}
