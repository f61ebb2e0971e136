// The sum of bytes taken byte by byte, as files had it before request N4, beside that by words:
// both are equal, and tests and benchmarks call both. No archive of the product has these calls.

#![tactic(auto)]

ghost use Rattle.std.specs.Prelude.{true, ◌≡◌};
ghost use Rattle.checksum.specs.Sums.{byte_sum};
ghost use Rattle.checksum_singly.specs.Trials.{TakenExported};

use checksum::{SUM_RANGE, byte_sum, sum_taken};

// The sum of all bytes, byte by byte.
pub fn byte_sum_singly(bytes: &[u8]) -> u64
    ensures { result ≡ byte_sum bytes.now }
{
    let mut sum: u64 = 0;
    for byte in bytes {
        sum = (sum + u64::from(*byte)) % SUM_RANGE;
    }
    sum
}

// The same as a file holds it, in two bytes: the compiler may then take several bytes at once.
pub fn byte_sum_singly_held(bytes: &[u8]) -> u16
    ensures { result ≡ byte_sum bytes.now }
{
    byte_sum_singly(bytes) as u16
}

// The sum of all bytes, by words.
pub fn byte_sum_by_words(bytes: &[u8]) -> u64
    ensures { result ≡ byte_sum bytes.now }
{
    byte_sum(bytes)
}

// The same as a file holds it, in two bytes.
pub fn byte_sum_by_words_held(bytes: &[u8]) -> u16
    ensures { result ≡ byte_sum bytes.now }
{
    byte_sum(bytes) as u16
}

// The sum of all bytes by words, and how it was taken.
pub fn byte_sum_taken(bytes: &[u8], rounds: &mut usize, singles: &mut usize) -> u64
    ensures { TakenExported bytes.now result rounds.new singles.new }
{
    let taken = sum_taken(bytes);
    *rounds = taken.rounds;
    *singles = taken.singles;
    taken.sum
}

// Whether both sums are equal: of whatever bytes, they are.
pub fn byte_sums_agree(bytes: &[u8]) -> bool
    ensures { result ≡ true }
{
    byte_sum(bytes) == byte_sum_singly(bytes)
}
