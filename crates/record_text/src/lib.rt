// The words of the uses. The algorithms' names are their own.
#![tactic(auto)]

ghost use Rattle.std.specs.Prelude.{◌≡◌};
ghost use Rattle.record_text.specs.Text.{use_word};

// 1 send, 2 receive, 3 both.
#[tactic(auto, unfolding(crate::specs::Text::use_word))]
pub fn use_word(usage: u64) -> [u8; 4]
    ensures { result ≡ use_word usage }
{
    match usage {
        1 => *b"SEND",
        2 => *b"RECV",
        _ => *b"BOTH",
    }
}
