// Where and why an input is refused: the line that the program `drawtrack` writes to standard
// error, into lent bytes. The functions named `put` ask for the room.

#![tactic(auto)]

ghost use Rattle.std.specs.Prelude.{◌+◌, ◌≤◌, length};
ghost use Rattle.laws.specs.Writing.{Put};
ghost use Rattle.output_reason.specs.Reason.{place_words, reason_line, ReasonSays};

use output_lines::{put_spaced, put_text};
use output_words::put_words;

// More bytes than any line of a reason takes.
pub const REASON_BYTES: usize = 128;

// Lines of the input, counted from 1: the settings line is the first. 0 stands for the worklist as
// a whole.
pub const WHOLE_WORKLIST: usize = 0;

pub const SETTINGS_LINE: usize = 1;

// Writes which line of the input it is, where that fits.
fn put_place(line: usize, out: &mut [u8], at: usize) -> usize
    requires { at + length (place_words line) ≤ length out.old }
    ensures { Put (place_words line) at out.old out.new result }
{
    match line {
        WHOLE_WORKLIST => put_text(b"worklist", out, at),
        SETTINGS_LINE => put_text(b"settings line", out, at),
        _ => {
            let after_word = put_text(b"line", out, at);
            put_spaced(line as u64, out, after_word)
        }
    }
}

// Writes the line of a reason, where it fits.
fn put_reason(line: usize, refusal: u32, out: &mut [u8]) -> usize
    requires { length (reason_line line refusal) ≤ length out.old }
    ensures { Put (reason_line line refusal) 0 out.old out.new result }
{
    let after_name = put_text(b"drawtrack: ", out, 0);
    let after_place = put_place(line, out, after_name);
    let after_refused = put_text(b": refused", out, after_place);
    let after_number = put_spaced(refusal as u64, out, after_refused);
    let after_colon = put_text(b": ", out, after_number);
    let after_words = put_words(refusal, out, after_colon);
    put_text(b"\n", out, after_words)
}

// Writes the line of a reason to the first of the lent bytes, if these are as many as any such line
// takes, and answers how many it takes; otherwise writes nothing and answers 0.
pub fn write_reason(line: usize, refusal: u32, out: &mut [u8]) -> usize
    ensures { ReasonSays line refusal out.old out.new result }
{
    if out.len() < REASON_BYTES {
        return 0;
    }
    put_reason(line, refusal, out)
}
