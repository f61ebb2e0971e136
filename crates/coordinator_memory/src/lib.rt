// Refusals 4 and 11 of the coordinator: whether record and lent memory are consistent, for whatever
// numbers they hold.

#![tactic(auto)]

ghost use Rattle.std.specs.Prelude.{◌≡◌, ◌&&◌, ◌||◌, not, ◌<◌, ◌≤◌, eqb, ltb, length};
ghost use Rattle.model.specs.Limits.{value_count, coordinator_limit};
ghost use Rattle.model.specs.SiteMemory.{sum};
ghost use Rattle.model.specs.Refusals.{refusal_told};
ghost use Rattle.model.specs.CoordinatorMemory.{all_within, phase_consistent, coordinator_in, coordinator_consistent, coordinator_memory_refusal};
ghost use Rattle.coordinator_memory.specs.Consistency.{record_consistent, numbers_consistent, half_range, higher_halves, SumAsks, MemoryAsks};

use coordinator_kinds::threshold_of;
use model::{
    COORDINATOR_LIMIT, CoordinatorRecord, Phase, Refusal, Settings, TOP_VALUE, VALUE_COUNT,
};
use settings::test_settings;

// The sum of the higher halves of numbers. They are added up with no test among the additions, so
// that the compiler takes several at once.
fn sum_of_halves(numbers: &[u64]) -> u64
    requires { length numbers.now < half_range }
    ensures { result ≡ sum (higher_halves numbers.now) }
{
    let mut total = 0;
    for number in numbers {
        total += number / 4294967296;
    }
    total
}

// Whether all numbers are within a limit, one by one.
fn each_within(numbers: &[u64], limit: u64) -> bool
    ensures { result ≡ all_within limit numbers.now }
{
    numbers.iter().all(|number| *number <= limit)
}

// Whether all numbers are within a limit. Where their higher halves together are below the
// limit's, as in memory that arose, they need not be looked at one by one.
#[tactic(auto, using(crate::proofs::NumberLaws::halves_within))]
fn all_within(numbers: &[u64], limit: u64) -> bool
    ensures { result ≡ all_within limit numbers.now }
{
    (numbers.len() < 4294967296 && sum_of_halves(numbers) < limit / 4294967296)
        || each_within(numbers, limit)
}

// The sum of value counts that are within the limit.
fn sum_of(numbers: &[u64]) -> u64
    requires { SumAsks numbers.now }
    ensures { result ≡ sum numbers.now }
{
    let mut total = 0;
    for number in numbers {
        total += number;
    }
    total
}

// Whether all sites have signalled and the phase names one of them.
fn closing_consistent(settings: Settings, signals: u32, site: u32) -> bool
    ensures { result ≡ (eqb signals settings.sites && ltb site settings.sites) }
{
    signals == settings.sites && site < settings.sites
}

// Whether the phase is consistent with the signals.
fn phase_consistent(settings: Settings, signals: u32, phase: Phase) -> bool
    ensures { result ≡ phase_consistent settings signals phase }
{
    match phase {
        Phase::Idle => signals < settings.sites,
        Phase::Probing(site, low, high, sum) => {
            closing_consistent(settings, signals, site)
                && low < high
                && high <= TOP_VALUE
                && sum <= COORDINATOR_LIMIT
        }
        Phase::Collecting(site) | Phase::Announcing(site) => {
            closing_consistent(settings, signals, site)
        }
    }
}

// What the record shows by itself.
pub fn record_consistent(settings: Settings, coordinator: CoordinatorRecord) -> bool
    ensures { result ≡ record_consistent settings coordinator }
{
    phase_consistent(settings, coordinator.signals, coordinator.phase)
        && coordinator.base <= coordinator.total
        && coordinator.quantile <= TOP_VALUE
        && coordinator.total <= COORDINATOR_LIMIT
}

// What the value counts show: their sum is the total while the threshold is 1.
fn counts_consistent(coordinator: CoordinatorRecord, counts: &[u64]) -> bool
    requires { length counts.now ≤ value_count }
    ensures { result ≡ (all_within coordinator_limit counts.now
        && (not (eqb coordinator.threshold 1) || eqb (sum counts.now) coordinator.total)) }
{
    all_within(counts, COORDINATOR_LIMIT)
        && (coordinator.threshold != 1 || sum_of(counts) == coordinator.total)
}

// What the numbers in memory show.
fn numbers_consistent(settings: Settings, coordinator: CoordinatorRecord, memory: &[u64]) -> bool
    requires { MemoryAsks settings memory.now }
    ensures { result ≡ numbers_consistent (coordinator_in settings coordinator
        memory.now) }
{
    let items = settings.universe as usize;
    let words = items + VALUE_COUNT;
    all_within(&memory[..items], COORDINATOR_LIMIT)
        && counts_consistent(coordinator, &memory[items..words])
}

// Whether record and memory are consistent. Internal: `test_coordinator_memory` tests settings
// and length first, and so does the batch call, `test_network`.
pub fn coordinator_consistent(
    settings: Settings,
    coordinator: CoordinatorRecord,
    memory: &[u64],
) -> bool
    requires { MemoryAsks settings memory.now }
    ensures { result ≡ coordinator_consistent settings
        (coordinator_in settings coordinator memory.now) }
{
    record_consistent(settings, coordinator)
        && coordinator.threshold == threshold_of(settings, coordinator.base)
        && numbers_consistent(settings, coordinator, memory)
}

// What every call on the coordinator tests first: 1, 2, 3; then 4, 11.
pub fn test_coordinator_memory(
    settings: Settings,
    coordinator: CoordinatorRecord,
    memory: &[u64],
) -> Result<(), Refusal>
    ensures { refusal_told result ≡ coordinator_memory_refusal settings coordinator
        memory.now }
{
    test_settings(settings)?;
    if memory.len() < (settings.universe as usize) + VALUE_COUNT {
        return Err(Refusal::MemoryTooShort);
    }
    if !coordinator_consistent(settings, coordinator, memory) {
        return Err(Refusal::MemoryInconsistent);
    }
    Ok(())
}
