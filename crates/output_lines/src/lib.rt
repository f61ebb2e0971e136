// Lines of words and numbers, written into a lent buffer from a place on. Each call answers the
// place after its line; where the line doesn't fit, nothing is written and the answer is the place
// that was given. The functions named `write` test for the room; those named `put` ask for it and
// are internal: this crate's own, and two of them `output_words`'s and `output_reason`'s.

#![tactic(auto)]

ghost use Rattle.std.specs.Prelude.{◌≡◌, ◌∷◌, ◌+◌, ◌≤◌, leb, length};
ghost use Rattle.laws.specs.Writing.{Put};
ghost use Rattle.model.specs.Decimal.{decimal};
ghost use Rattle.model.specs.Messages.{message};
ghost use Rattle.model.specs.Transcript.{space, spaced, message_line};
ghost use Rattle.output_lines.specs.Promises.{counted_line, listed_line, LineWritten, RecordWritten, SpacedLength};

use output_decimals::{count_decimal, write_decimal};

// Whether so many places are free from a place on.
fn has_room(length: usize, at: usize, need: usize) -> bool
    ensures { result ≡ leb (at + need) length }
{
    at <= length && need <= length - at
}

// How many bytes a number takes with a space before it.
fn spaced_length(n: u64) -> usize
    ensures { SpacedLength n result }
{
    count_decimal(n) + 1
}

// Copies bytes from a place on, where they fit. Internal.
pub fn put_text(text: &[u8], out: &mut [u8], at: usize) -> usize
    requires { at + length text.now ≤ length out.old }
    ensures { Put text.now at out.old out.new result }
{
    let end = at + text.len();
    out[at..end].copy_from_slice(text);
    end
}

// Writes a number with a space before it, where they fit. Internal.
pub fn put_spaced(n: u64, out: &mut [u8], at: usize) -> usize
    requires { at + length (space ∷ decimal n) ≤ length out.old }
    ensures { Put (space ∷ decimal n) at out.old out.new result }
{
    let place = put_text(b" ", out, at);
    place + write_decimal(n, out, place)
}

// Writes a whole line as it is given.
pub fn write_text(text: &[u8], out: &mut [u8], at: usize) -> usize
    ensures { LineWritten text.now at out.old out.new result }
{
    if has_room(out.len(), at, text.len()) {
        return put_text(text, out, at);
    }
    at
}

// Writes a line of a word and a number, where it fits.
fn put_counted(word: &[u8], n: u64, out: &mut [u8], at: usize) -> usize
    requires { at + length (counted_line word.now n) ≤ length out.old }
    ensures { Put (counted_line word.now n) at out.old
        out.new result }
{
    let after_word = put_text(word, out, at);
    let after_number = put_spaced(n, out, after_word);
    put_text(b"\n", out, after_number)
}

// Writes a line of a word and a number.
pub fn write_counted(word: &[u8], n: u64, out: &mut [u8], at: usize) -> usize
    ensures { LineWritten (counted_line word.now n) at out.old
        out.new result }
{
    let need = word.len() + spaced_length(n) + 1;
    if has_room(out.len(), at, need) {
        return put_counted(word, n, out, at);
    }
    at
}

// Writes the line of a message, where it fits.
fn put_message(kind: u64, site: u64, a: u64, b: u64, out: &mut [u8], at: usize) -> usize
    requires { at + length (message_line (message kind site a b)) ≤ length out.old }
    ensures { Put (message_line (message kind site a b)) at out.old
        out.new result }
{
    let after_kind = at + write_decimal(kind, out, at);
    let after_site = put_spaced(site, out, after_kind);
    let after_a = put_spaced(a, out, after_site);
    let after_b = put_spaced(b, out, after_a);
    put_text(b"\n", out, after_b)
}

// A message by its four numbers, as a log holds them. The line feed stands for the space that the
// first number lacks.
pub fn write_record(kind: u64, site: u64, a: u64, b: u64, out: &mut [u8], at: usize) -> usize
    ensures { RecordWritten (message kind site a b) at out.old out.new
        result }
{
    let head = spaced_length(kind) + spaced_length(site);
    let need = head + spaced_length(a) + spaced_length(b);
    if has_room(out.len(), at, need) {
        return put_message(kind, site, a, b, out, at);
    }
    at
}

// Whether numbers, each with a space before it, fit into so many places.
fn numbers_fit(items: &[u32], room: usize) -> bool
    ensures { result ≡ leb (length (spaced items.now)) room }
{
    let mut left = room;
    for item in items {
        let need = spaced_length(u64::from(*item));
        if left < need {
            return false;
        }
        left -= need;
    }
    true
}

// Writes numbers, each with a space before it, where they fit.
fn put_numbers(items: &[u32], out: &mut [u8], at: usize) -> usize
    requires { at + length (spaced items.now) ≤ length out.old }
    ensures { Put (spaced items.now) at out.old out.new result }
{
    let mut place = at;
    for item in items {
        place = put_spaced(u64::from(*item), out, place);
    }
    place
}

// Writes the line of listed items, where it fits.
fn put_listed(items: &[u32], out: &mut [u8], at: usize) -> usize
    requires { at + length (listed_line items.now) ≤ length out.old }
    ensures { Put (listed_line items.now) at out.old out.new
        result }
{
    let after_word = put_text(b"listed", out, at);
    let after_items = put_numbers(items, out, after_word);
    put_text(b"\n", out, after_items)
}

// Writes the line of listed items: seven bytes beside the items.
pub fn write_items(items: &[u32], out: &mut [u8], at: usize) -> usize
    ensures { LineWritten (listed_line items.now) at out.old
        out.new result }
{
    if has_room(out.len(), at, 7) && numbers_fit(items, out.len() - at - 7) {
        return put_listed(items, out, at);
    }
    at
}
