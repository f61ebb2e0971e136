// The calls of `checksum_singly` as tests and benchmarks, written in Rust, link them: the sum of
// bytes taken byte by byte beside that by words. No archive of the product has these calls.

#![tactic(auto)]

ghost use Rattle.std.specs.Prelude.{true, ◌≡◌};
ghost use Rattle.checksum.specs.Sums.{byte_sum};
ghost use Rattle.checksum_singly.specs.Trials.{TakenExported};

// The sum of all bytes, byte by byte.
#[unsafe(no_mangle)]
pub extern "C" fn byte_sum_singly(bytes: &[u8]) -> u64
    ensures { result ≡ byte_sum bytes.now }
{
    checksum_singly::byte_sum_singly(bytes)
}

// The same as a file holds it, in two bytes.
#[unsafe(no_mangle)]
pub extern "C" fn byte_sum_singly_held(bytes: &[u8]) -> u16
    ensures { result ≡ byte_sum bytes.now }
{
    checksum_singly::byte_sum_singly_held(bytes)
}

// The sum of all bytes, by words.
#[unsafe(no_mangle)]
pub extern "C" fn byte_sum_by_words(bytes: &[u8]) -> u64
    ensures { result ≡ byte_sum bytes.now }
{
    checksum_singly::byte_sum_by_words(bytes)
}

// The same as a file holds it, in two bytes.
#[unsafe(no_mangle)]
pub extern "C" fn byte_sum_by_words_held(bytes: &[u8]) -> u16
    ensures { result ≡ byte_sum bytes.now }
{
    checksum_singly::byte_sum_by_words_held(bytes)
}

// The sum of all bytes by words, and how it was taken.
#[unsafe(no_mangle)]
pub extern "C" fn byte_sum_taken(bytes: &[u8], rounds: &mut usize, singles: &mut usize) -> u64
    ensures { TakenExported bytes.now result rounds.new singles.new }
{
    checksum_singly::byte_sum_taken(bytes, rounds, singles)
}

// Whether both sums are equal: of whatever bytes, they are.
#[unsafe(no_mangle)]
pub extern "C" fn byte_sums_agree(bytes: &[u8]) -> bool
    ensures { result ≡ true }
{
    checksum_singly::byte_sums_agree(bytes)
}
