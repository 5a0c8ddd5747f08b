// The calls of a log (document 02, [13]), and which of them are sound.
#![tactic(auto)]

pub mod figures;

ghost use Rattle.std.specs.Prelude.{◌≡◌};
ghost use Rattle.logged_calls.specs.Log.{sound_accepted, sound_refused, is_sound};

// What a line says, in the numbers of its text: a direction or a code that is none is still read, and `is_sound` tells.
#[derive(Clone, Copy)]
pub struct Call {
    pub slot: u64,
    pub direction: u64,
    pub bits: u64,
    pub blocks: u64,
    pub code: u64,
}

impl Call {
    // An accepted call: its slot and its direction are such, its bits fit its blocks, and without bits there are no blocks.
    #[tactic(auto, unfolding(crate::specs::Log::sound_accepted))]
    fn is_sound_accepted(self) -> bool
        ensures { result ≡ sound_accepted self.slot self.direction self.bits self.blocks }
    {
        (1..=32).contains(&self.slot)
            && (1..=2).contains(&self.direction)
            && self.bits <= 8288
            && self.blocks <= 33
            && self.bits <= 256 * self.blocks
            && (0 < self.bits || self.blocks == 0)
    }

    // A refused call has a refusal's number, no bits and no blocks.
    #[tactic(auto, unfolding(crate::specs::Log::sound_refused))]
    fn is_sound_refused(self) -> bool
        ensures { result ≡ sound_refused self.bits self.blocks self.code }
    {
        self.code <= 27 && self.bits == 0 && self.blocks == 0
    }

    // Is the line good, once it is in form?
    #[tactic(auto, unfolding(crate::specs::Log::is_sound))]
    pub fn is_sound(self) -> bool
        ensures { result ≡ is_sound self }
    {
        if self.code == 0 {
            self.is_sound_accepted()
        } else {
            self.is_sound_refused()
        }
    }
}
