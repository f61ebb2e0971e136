// Why an input is refused, in words, into lent bytes. The function is internal: it asks for the
// room, and serves `output_reason`.

#![tactic(auto)]

ghost use Rattle.std.specs.Prelude.{◌≡◌, ◌+◌, ◌≤◌, length};
ghost use Rattle.laws.specs.Writing.{Put};
ghost use Rattle.model.specs.Refusals.{number_of};
ghost use Rattle.output_words.specs.Words.{words_of};

use model::{NO_REFUSAL, Refusal};
use output_lines::put_text;

// What a number past the table is called.
const UNKNOWN: &[u8] = b"unknown refusal";

// The words of a refusal.
fn words(refusal: Refusal) -> &'static [u8]
    ensures { result.now ≡ words_of (number_of refusal) }
{
    match refusal {
        Refusal::SettingOutOfRange => b"setting outside its range",
        Refusal::PhiBelowEpsilon => b"list share below leeway",
        Refusal::TooFewCounters => b"too few slots for the leeway",
        Refusal::MemoryTooShort => b"beyond what this program serves",
        Refusal::UnknownSite => b"unknown deck",
        Refusal::UnknownItem => b"unknown code",
        Refusal::ValueTooLarge => b"class above 1023",
        Refusal::SiteFull => b"deck full",
        Refusal::MessageNotDue => b"message not due",
        Refusal::AmountNotDue => b"amount not due",
        Refusal::MemoryInconsistent => b"memory inconsistent",
        Refusal::ListTooShort => b"list too short",
        Refusal::MalformedLine => b"malformed line",
        Refusal::LogTooShort => b"log too short",
        Refusal::FileUnreadable => UNKNOWN,
        Refusal::ChecksumWrong => UNKNOWN,
    }
}

// The words of a number, which may be no refusal's.
fn words_of_number(number: u32) -> &'static [u8]
    ensures { result.now ≡ words_of number }
{
    match Refusal::try_from(number) {
        Ok(refusal) => words(refusal),
        Err(_) => {
            if number == NO_REFUSAL {
                b"accepted"
            } else {
                UNKNOWN
            }
        }
    }
}

// Writes the words of a refusal's number, where they fit.
pub fn put_words(refusal: u32, out: &mut [u8], at: usize) -> usize
    requires { at + length (words_of refusal) ≤ length out.old }
    ensures { Put (words_of refusal) at out.old out.new result }
{
    put_text(words_of_number(refusal), out, at)
}
