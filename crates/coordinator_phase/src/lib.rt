// The coordinator's phase as five numbers, in document 01's order (crate `record_numbers` has the
// definitions): its number, its site, the two ends of its interval, and its sum.

#![tactic(auto)]

ghost use Rattle.std.specs.Prelude.{◌≡◌, ◌+◌};
ghost use Rattle.model.specs.Choice.{is_zero};
ghost use Rattle.record_numbers.specs.Numbers.{phase_from, phase_well, phase_numbers};

use model::Phase;
use record_numbers::PhaseNumbers;

// Whether three numbers are all 0.
fn all_zero(x: u64, y: u64, z: u64) -> bool
    ensures { result ≡ is_zero (x + y + z) }
{
    x == 0 && y == 0 && z == 0
}

// Whether five numbers are a phase's: its number is at most 3, and those that it has not are 0.
pub fn phase_well(which: u64, site: u64, low: u64, high: u64, sum: u64) -> bool
    ensures { result ≡ phase_well which site low high sum }
{
    match which {
        0 => site == 0 && all_zero(low, high, sum),
        1 | 3 => all_zero(low, high, sum),
        2 => true,
        _ => false,
    }
}

// The phase of five numbers.
pub fn phase_from(which: u64, site: u32, low: u32, high: u32, sum: u64) -> Phase
    ensures { result ≡ phase_from which site low high sum }
{
    match which {
        0 => Phase::Idle,
        1 => Phase::Collecting(site),
        2 => Phase::Probing(site, low, high, sum),
        _ => Phase::Announcing(site),
    }
}

// The numbers of a phase; those that it has not are 0.
pub fn phase_numbers(phase: Phase) -> PhaseNumbers
    ensures { result ≡ phase_numbers phase }
{
    let idle = PhaseNumbers {
        which: 0,
        site: 0,
        low: 0,
        high: 0,
        sum: 0,
    };
    match phase {
        Phase::Idle => idle,
        Phase::Collecting(site) => PhaseNumbers {
            which: 1,
            site,
            ..idle
        },
        Phase::Probing(site, low, high, sum) => PhaseNumbers {
            which: 2,
            site,
            low,
            high,
            sum,
        },
        Phase::Announcing(site) => PhaseNumbers {
            which: 3,
            site,
            ..idle
        },
    }
}
