// The desk part of a file (request N3): whether the coordinator that it holds is consistent. The
// tests are made on the bytes, since nothing is stored before the last of them; the memory has up
// to 66,560 numbers, too many for a local array. The functions are internal: the tests before
// decide that the file has the length that its settings give.

#![tactic(auto)]

ghost use Rattle.std.specs.Prelude.{◌≡◌};
ghost use Rattle.model.specs.Limits.{value_count, coordinator_limit};
ghost use Rattle.model.specs.SiteMemory.{sum};
ghost use Rattle.model.specs.CoordinatorMemory.{all_within, coordinator_in, coordinator_consistent};
ghost use Rattle.coordinator_memory.specs.Consistency.{numbers_consistent};
ghost use Rattle.record_numbers.specs.Numbers.{coordinator_read};
ghost use Rattle.snapshot_file.specs.Reading.{desk_record};
ghost use Rattle.snapshot_header.specs.Header.{WholeFile};
ghost use Rattle.snapshot_desk.specs.Desk.{desk_memory, numbers_from, NumbersLie, SumAsks};

use coordinator_kinds::threshold_of;
use coordinator_memory::record_consistent;
use coordinator_numbers::coordinator_from;
use little_endian::read_fixed;
use model::{COORDINATOR_LIMIT, CoordinatorRecord, Settings, VALUE_COUNT};
use snapshot_file::{DESK_BYTES, DESK_PLACE};
use snapshot_header::desk_row;

// Whether so many numbers from a place on are within the coordinator's limit.
fn numbers_within(file: &[u8], from: usize, count: usize) -> bool
    requires { NumbersLie file.now from count }
    ensures { result ≡ all_within coordinator_limit (numbers_from file.now from count) }
{
    for i in 0..count {
        if COORDINATOR_LIMIT < read_fixed::<DESK_BYTES>(file, from + DESK_BYTES * i) {
            return false;
        }
    }
    true
}

// The sum of so many numbers from a place on.
fn numbers_sum(file: &[u8], from: usize, count: usize) -> u64
    requires { SumAsks file.now from count }
    ensures { result ≡ sum (numbers_from file.now from count) }
{
    let mut total: u64 = 0;
    for i in 0..count {
        total += read_fixed::<DESK_BYTES>(file, from + DESK_BYTES * i);
    }
    total
}

// How many values there are; the number itself stays shut in proofs.
fn value_count() -> usize
    ensures { result ≡ value_count }
{
    VALUE_COUNT
}

// What the numbers of the memory show.
fn memory_consistent(settings: Settings, coordinator: CoordinatorRecord, file: &[u8]) -> bool
    requires { WholeFile settings file.now }
    ensures { result ≡ numbers_consistent (coordinator_in settings coordinator
        (desk_memory settings file.now)) }
{
    let count = value_count();
    let items = settings.universe as usize;
    let values = DESK_PLACE + DESK_BYTES * items;
    if numbers_within(file, DESK_PLACE, items) {
        if numbers_within(file, values, count) {
            if coordinator.threshold == 1 {
                return numbers_sum(file, values, count) == coordinator.total;
            }
            return true;
        }
    }
    false
}

// Whether the coordinator that the file holds is consistent. Numbers that are no record stand for
// one that is not.
pub fn desk_consistent(settings: Settings, file: &[u8]) -> bool
    requires { WholeFile settings file.now }
    ensures { result ≡ coordinator_consistent settings (coordinator_in settings
        (coordinator_read (desk_record settings file.now))
        (desk_memory settings file.now)) }
{
    let row = desk_row(settings, file);
    let coordinator = coordinator_from(&row);
    if record_consistent(settings, coordinator) {
        if coordinator.threshold == threshold_of(settings, coordinator.base) {
            return memory_consistent(settings, coordinator, file);
        }
    }
    false
}
