// Decimal numbers, written to bytes.

#![tactic(auto)]

ghost use Rattle.std.specs.Prelude.{◌≡◌, ◌+◌, ◌≤◌, ◌<◌, length};
ghost use Rattle.laws.specs.Writing.{Put};
ghost use Rattle.model.specs.Decimal.{digit_byte, decimal};
ghost use Rattle.output_decimals.specs.Promises.{DecimalSays};

use model::ZERO;

// How many digits a number has. Internal: for the crates that write lines of such numbers.
pub fn count_decimal(n: u64) -> usize
    ensures { result ≡ length (decimal n) }
{
    let mut rest = n;
    let mut count: usize = 1;
    while 9 < rest {
        rest /= 10;
        count += 1;
    }
    count
}

// The byte of a digit.
fn digit_byte(digit: u64) -> u8
    requires { digit < 10 }
    ensures { result ≡ digit_byte digit }
{
    (digit as u8) + ZERO
}

// Writes the digits of a number from a place on, where they fit, and answers how many they are;
// internal to `write_decimal`.
fn put_digits(n: u64, bytes: &mut [u8], at: usize) -> usize
    requires { at + length (decimal n) ≤ length bytes.old }
    ensures { Put (decimal n) at bytes.old bytes.new (at + result) }
{
    if n < 10 {
        bytes[at] = digit_byte(n);
        return 1;
    }
    let used = put_digits(n / 10, bytes, at);
    bytes[at + used] = digit_byte(n % 10);
    used + 1
}

// Writes a number in decimal from a place on; answers how many bytes it took, 0 if they don't fit.
pub fn write_decimal(n: u64, bytes: &mut [u8], at: usize) -> usize
    ensures { DecimalSays n at bytes.old bytes.new result }
{
    if bytes.len() < at || bytes.len() - at < count_decimal(n) {
        return 0;
    }
    put_digits(n, bytes, at)
}
