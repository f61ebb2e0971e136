// The coordinator's record as a row of numbers, in document 01's order (crate `record_numbers` has
// the definitions): total, base, threshold, signals, class; then the five numbers of its
// phase (crate `coordinator_phase`).

#![tactic(auto)]

ghost use Rattle.std.specs.Prelude.{◌≡◌, ◌≤◌};
ghost use Rattle.record_numbers.specs.Numbers.{greatest_narrow, greatest_held, coordinator_well, no_coordinator, coordinator_from, coordinator_read, coordinator_numbers};

use coordinator_phase::{phase_from, phase_numbers, phase_well};
use model::{CoordinatorRecord, Phase};

// How many numbers the record takes.
pub const COORDINATOR_NUMBERS: usize = 10;

// The greatest of the numbers that the record holds in four bytes.
fn greatest_held(row: &[u64; COORDINATOR_NUMBERS]) -> u64
    ensures { result ≡ greatest_held row.now }
{
    let single = row[3].max(row[4]);
    let interval = row[7].max(row[8]);
    single.max(row[6].max(interval))
}

// Whether a row is that of a record.
fn coordinator_well(row: &[u64; COORDINATOR_NUMBERS]) -> bool
    ensures { result ≡ coordinator_well row.now }
{
    greatest_held(row) <= 4294967295 && phase_well(row[5], row[6], row[7], row[8], row[9])
}

// The record of a row that is one.
fn record_from(row: &[u64; COORDINATOR_NUMBERS]) -> CoordinatorRecord
    requires { greatest_held row.now ≤ greatest_narrow }
    ensures { result ≡ coordinator_from row.now }
{
    let phase = phase_from(row[5], row[6] as u32, row[7] as u32, row[8] as u32, row[9]);
    CoordinatorRecord {
        total: row[0],
        base: row[1],
        threshold: row[2],
        signals: row[3] as u32,
        quantile: row[4] as u32,
        phase,
    }
}

// A record of zeros, which is inconsistent with any memory.
fn no_coordinator() -> CoordinatorRecord
    ensures { result ≡ no_coordinator }
{
    CoordinatorRecord {
        total: 0,
        base: 0,
        threshold: 0,
        signals: 0,
        quantile: 0,
        phase: Phase::Idle,
    }
}

// The record of a row; of zeros for a row that is none.
pub fn coordinator_from(row: &[u64; COORDINATOR_NUMBERS]) -> CoordinatorRecord
    ensures { result ≡ coordinator_read row.now }
{
    if coordinator_well(row) {
        record_from(row)
    } else {
        no_coordinator()
    }
}

// The row of a record.
pub fn coordinator_row(coordinator: CoordinatorRecord) -> [u64; COORDINATOR_NUMBERS]
    ensures { result ≡ coordinator_numbers coordinator }
{
    let phase = phase_numbers(coordinator.phase);
    [
        coordinator.total,
        coordinator.base,
        coordinator.threshold,
        coordinator.signals as u64,
        coordinator.quantile as u64,
        phase.which,
        phase.site as u64,
        phase.low as u64,
        phase.high as u64,
        phase.sum,
    ]
}
