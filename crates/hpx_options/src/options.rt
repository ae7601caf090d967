//! The words of the command line, read.
ghost use Rattle.std.specs.Prelude.{◌≡◌, ◌↔◌, ℕ, Err, IfOk};
ghost use Rattle.hpx_options.specs.Meanings.{Means, BadWord, reading_of};

use crate::line::Line;
use crate::settings::{OptionFault, Settings};
use hpx_value::items::Texts;

/// What words mean. It takes no memory.
pub fn read(words: &Texts) -> Result<Settings, OptionFault>
    ensures ok { IfOk result (λ settings. reading_of words.now ≡ Means settings) }
    ensures usage { (place : ℕ) → (result ≡ Err (record { place = place })) ↔ (reading_of words.now ≡ BadWord place) }
{
    let mut line = Line::new();
    let mut place = 0u32;
    for word in words.as_slice() {
        place += 1;
        line = match line.after_word(word.as_slice()) {
            Some(next) => next,
            None => return Err(OptionFault { place }),
        };
    }
    line.settings().ok_or(OptionFault { place: 0 })
}
