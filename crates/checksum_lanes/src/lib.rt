// A word of eight bytes as four lanes of 16 bits, so that bytes are added four at a time (request
// N4). The functions are internal.

#![tactic(auto)]

ghost use Rattle.std.specs.Prelude.{◌≡◌, ◌/◌, ◌^◌};
ghost use Rattle.checksum_lanes.specs.Fields.{lower_halves, field_sum};

// The lower byte of each lane: the first, third, fifth and seventh byte of the word.
pub fn lower_bytes(word: u64) -> u64
    ensures { result ≡ lower_halves 8 4 word }
{
    word & 0x00ff_00ff_00ff_00ff
}

// The upper byte of each lane: the others.
pub fn upper_bytes(word: u64) -> u64
    ensures { result ≡ lower_halves 8 4 (word / 2 ^ 8) }
{
    (word >> 8) & 0x00ff_00ff_00ff_00ff
}

// The four lanes, added.
pub fn lane_sum(lanes: u64) -> u64
    ensures { result ≡ field_sum 16 4 lanes }
{
    let second = lanes / 65536;
    let third = second / 65536;
    let fourth = third / 65536;
    lanes % 65536 + second % 65536 + third % 65536 + fourth % 65536
}
