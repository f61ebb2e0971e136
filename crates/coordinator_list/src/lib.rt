// The list call: the heavy hitters of the coordinator, in rising order. The record and the memory
// are not changed; the call has no `requires` and tests all that it is given.

#![tactic(auto)]

ghost use Rattle.std.specs.Prelude.{◌≡◌, length, leb};
ghost use Rattle.coordinator_reading.specs.Promises.{ReadAsks, SidesAsk};
ghost use Rattle.coordinator_list.specs.Promises.{list_answer, ListSays, WriteListedAsks, WriteListedSays, hitters_in, rule_holds};

use coordinator_memory::test_coordinator_memory;
use coordinator_reading::side_needed;
use model::{CoordinatorRecord, LIST_FACTOR, Refusal, Settings};

// Whether an item with this number is listed.
fn is_listed(settings: Settings, total: u64, number: u64) -> bool
    requires { SidesAsk settings total number }
    ensures { result ≡ rule_holds settings total number }
{
    1 <= total && side_needed(settings, total, number) <= LIST_FACTOR * number
}

// Whether the listed items have places. All of them have where there is a place for every item;
// only fewer places need a pass, which ends at the first listed item without one.
fn list_fits(
    settings: Settings,
    coordinator: CoordinatorRecord,
    memory: &[u64],
    places: usize,
) -> bool
    requires { ReadAsks settings coordinator memory.now }
    ensures { result ≡ leb (length (hitters_in settings coordinator memory.now))
        places }
{
    let items = settings.universe as usize;
    if items <= places {
        return true;
    }
    let mut count = 0;
    for number in &memory[..items] {
        if is_listed(settings, coordinator.total, *number) {
            count += 1;
            if places < count {
                return false;
            }
        }
    }
    true
}

// Writes the listed items to the front of a list that has the places, and says how many
// they are.
fn write_listed(
    settings: Settings,
    coordinator: CoordinatorRecord,
    memory: &[u64],
    list: &mut [u32],
) -> u32
    requires { WriteListedAsks settings coordinator memory.now list.old }
    ensures { WriteListedSays settings coordinator memory.now list.old
        list.new result }
{
    let items = settings.universe as usize;
    let mut count = 0;
    for (item, number) in memory[..items].iter().enumerate() {
        if is_listed(settings, coordinator.total, *number) {
            list[count] = item as u32;
            count += 1;
        }
    }
    count as u32
}

// The items with a share of the arrivals, in rising order: one pass, where the list has a place for
// every item. With fewer places another goes before, so that a list with too few stays as it was.
pub fn list_heavy_hitters(
    settings: Settings,
    coordinator: CoordinatorRecord,
    memory: &[u64],
    list: &mut [u32],
) -> Result<u32, Refusal>
    ensures { ListSays settings coordinator memory.now list.old list.new (list_answer result) }
{
    test_coordinator_memory(settings, coordinator, memory)?;
    if !list_fits(settings, coordinator, memory, list.len()) {
        return Err(Refusal::ListTooShort);
    }
    Ok(write_listed(settings, coordinator, memory, list))
}
