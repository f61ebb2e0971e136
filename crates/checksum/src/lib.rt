// The sum of bytes modulo 65,536 (request N3), taken a word of eight bytes at a time (request N4).
// The functions are internal: a file's sum is taken by saving and by reading.

#![tactic(auto)]

ghost use Rattle.std.specs.Prelude.{◌≡◌, ◌*◌, ◌≤◌, length};
ghost use Rattle.checksum.specs.Sums.{byte_sum};
ghost use Rattle.checksum.specs.Rounds.{word_bytes, BlockAsks, RestAsks, BlockSays, WordsSay, RestSays, TakenSays};

use checksum_lanes::{lane_sum, lower_bytes, upper_bytes};
use little_endian::read_fixed;

// How many bytes a word has.
const WORD_BYTES: usize = 8;
// How many words a block has at most: with 255 for each, no lane of 16 bits runs over.
const MOST_ROUNDS: usize = 256;
// What the sum is taken modulo.
pub const SUM_RANGE: u64 = 65536;

// The sum of a part of the bytes, and how many turns were made for it.
#[derive(Clone, Copy)]
struct Part {
    sum: u64,
    turns: usize,
}

// The sum of bytes, and how it was taken: in so many rounds of a word each, and so many bytes
// singly.
#[derive(Clone, Copy)]
pub struct Taken {
    pub sum: u64,
    pub rounds: usize,
    pub singles: usize,
}

// A block of words from a place on, one round for each: the lower and the upper byte of each lane
// are added in lanes of their own.
fn sum_block(bytes: &[u8], first: usize, rounds: usize) -> Part
    requires { BlockAsks bytes.now first rounds }
    ensures { BlockSays bytes.now first rounds result }
{
    let mut lower: u64 = 0;
    let mut upper: u64 = 0;
    let mut taken: usize = 0;
    for round in 0..rounds {
        let word = read_fixed::<WORD_BYTES>(bytes, first + WORD_BYTES * round);
        lower = lower + lower_bytes(word);
        upper = upper + upper_bytes(word);
        taken += 1;
    }
    Part {
        sum: lane_sum(lower) + lane_sum(upper),
        turns: taken,
    }
}

// The first words, block by block.
// As it is: the new form is no plainer: a turn goes on by the words that its block took.
fn sum_words(bytes: &[u8], rounds: usize) -> Part
    requires { word_bytes * rounds ≤ length bytes.now }
    ensures { WordsSay bytes.now rounds result }
{
    let mut sum: u64 = 0;
    let mut passed: usize = 0;
    while passed < rounds {
        let block = sum_block(
            bytes,
            WORD_BYTES * passed,
            (rounds - passed).min(MOST_ROUNDS),
        );
        sum = (sum + block.sum) % SUM_RANGE;
        passed += block.turns;
    }
    Part { sum, turns: passed }
}

// The bytes from a place on, singly; there are fewer than a word has.
fn sum_rest(bytes: &[u8], first: usize) -> Part
    requires { RestAsks bytes.now first }
    ensures { RestSays bytes.now first result }
{
    let mut sum: u64 = 0;
    let mut turns: usize = 0;
    for byte in &bytes[first..] {
        sum = sum + u64::from(*byte);
        turns += 1;
    }
    Part { sum, turns }
}

// The sum of all bytes: length / 8 rounds, and at most seven bytes singly.
pub fn sum_taken(bytes: &[u8]) -> Taken
    ensures { TakenSays bytes.now result }
{
    let rounds = bytes.len() / WORD_BYTES;
    let words = sum_words(bytes, rounds);
    let rest = sum_rest(bytes, WORD_BYTES * rounds);
    Taken {
        sum: (words.sum + rest.sum) % SUM_RANGE,
        rounds: words.turns,
        singles: rest.turns,
    }
}

// The sum of all bytes.
pub fn byte_sum(bytes: &[u8]) -> u64
    ensures { result ≡ byte_sum bytes.now }
{
    sum_taken(bytes).sum
}
