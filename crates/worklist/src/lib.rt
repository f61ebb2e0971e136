// Decimal numbers and worklist lines, read from bytes.

#![tactic(auto)]

ghost use Rattle.std.specs.Prelude.{◌≡◌, true, ◌+◌, ◌-◌, ◌≤◌, ◌<◌, length, drop};
ghost use Rattle.model.specs.Limits.{number_limit};
ghost use Rattle.model.specs.Decimal.{is_digit, digit_value, leading_zero};
ghost use Rattle.worklist.specs.Promises.{MoreDigitsSays, ReadNumberSays, EndedSays, ReadFieldSays, ReadThreeSays, TestLineSays};

use model::{Arrival, LINE_FEED, MORE_DIGITS, NINE, Refusal, SEMICOLON, ZERO};

// A number that was read: its value, and the place after it.
#[derive(Clone, Copy)]
pub struct NumberRead {
    pub value: u32,
    pub next: usize,
}

// Three fields that were read: their values, and the place after them.
#[derive(Clone, Copy)]
pub struct ThreeRead {
    pub first: u32,
    pub second: u32,
    pub third: u32,
    pub next: usize,
}

// The first line of some bytes: its arrival, and how many bytes it takes.
#[derive(Clone, Copy)]
pub struct LineRead {
    pub arrival: Arrival,
    pub used: usize,
}

fn is_digit(byte: u8) -> bool
    ensures { result ≡ is_digit byte }
{
    ZERO <= byte && byte <= NINE
}

// The value of a digit's byte.
fn digit_value(byte: u8) -> u32
    requires { is_digit byte ≡ true }
    ensures { (result ≡ digit_value byte) × (result < 10) }
{
    (byte - ZERO) as u32
}

// The digits after a number's first, at most six of them; a seventh makes it too long.
fn more_digits(bytes: &[u8], start: usize, first: u32) -> Option<NumberRead>
    requires { (start ≤ length bytes.now) × (first < 10) }
    ensures { MoreDigitsSays bytes.now start first result }
{
    let most = MORE_DIGITS as usize;
    let mut value = first;
    for next in start..bytes.len() {
        let byte = bytes[next];
        if !is_digit(byte) {
            return Some(NumberRead { value, next });
        }
        if next - start == most {
            return None;
        }
        value = 10 * value + digit_value(byte);
    }
    Some(NumberRead {
        value,
        next: bytes.len(),
    })
}

// Whether a number's first digit is a 0 with another digit after it.
fn leading_zero(bytes: &[u8], first: u8, next: usize) -> bool
    ensures { result ≡ leading_zero first (drop next bytes.now) }
{
    next < bytes.len() && first == ZERO && is_digit(bytes[next])
}

// The number that stands at a place of the bytes.
fn read_number(bytes: &[u8], at: usize) -> Option<NumberRead>
    ensures { ReadNumberSays bytes.now at result }
{
    if bytes.len() <= at {
        return None;
    }
    let first = bytes[at];
    let next = at + 1;
    if !is_digit(first) || leading_zero(bytes, first, next) {
        return None;
    }
    more_digits(bytes, next, digit_value(first))
}

// A number that was read, if the mark stands right after it.
fn ended_by(bytes: &[u8], number: NumberRead, mark: u8) -> Option<NumberRead>
    requires { (number.next ≤ length bytes.now) × (number.value < number_limit) }
    ensures { EndedSays mark bytes.now number result }
{
    if number.next < bytes.len() && bytes[number.next] == mark {
        return Some(NumberRead {
            next: number.next + 1,
            ..number
        });
    }
    None
}

// The number at a place of the bytes, with the mark that must end it.
fn read_field(bytes: &[u8], at: usize, mark: u8) -> Option<NumberRead>
    ensures { ReadFieldSays mark bytes.now at result }
{
    let number = read_number(bytes, at)?;
    ended_by(bytes, number, mark)
}

// Three fields from a place on, the third ended by a mark that the caller names. Internal: for the
// crates that read whole lines of such fields.
pub fn read_three(bytes: &[u8], at: usize, last: u8) -> Option<ThreeRead>
    ensures { ReadThreeSays last bytes.now at result }
{
    let first = read_field(bytes, at, SEMICOLON)?;
    let second = read_field(bytes, first.next, SEMICOLON)?;
    let third = read_field(bytes, second.next, last)?;
    Some(ThreeRead {
        first: first.value,
        second: second.value,
        third: third.value,
        next: third.next,
    })
}

// The line test: the first line of some bytes as an arrival, or refusal 13.
pub fn test_line(bytes: &[u8]) -> Result<LineRead, Refusal>
    ensures { TestLineSays bytes.now result }
{
    let Some(line) = read_three(bytes, 0, LINE_FEED) else {
        return Err(Refusal::MalformedLine);
    };
    Ok(LineRead {
        arrival: Arrival {
            site: line.first,
            item: line.second,
            value: line.third,
        },
        used: line.next,
    })
}
