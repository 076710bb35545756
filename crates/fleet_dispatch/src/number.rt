//! Numbers of 32 bits.

ghost use Rattle.std.specs.Prelude.{◌≡◌};
ghost use Rattle.fleet_dispatch.specs.ReportText.{long_number};

use fleet_text::{TOO_LONG, plain_number_of};

/// The number that a word spells without a leading zero, if 32 bits hold it.
pub fn long_number_of(word: &[u8]) -> Option<u32>
    ensures { result ≡ long_number word.now }
{
    let number = plain_number_of(word)?;
    if number < TOO_LONG {
        Some(number as u32)
    } else {
        None
    }
}
