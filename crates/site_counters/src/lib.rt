// A counter of one site in its lent memory (Space-Saving), read and stored; crate `site_search`
// finds its place. The functions with a `requires` are internal; the test that decides it is
// `site_memory::test_site_memory`, which every call on a site makes first, or the batch call's
// start test.

#![tactic(auto)]

ghost use Rattle.std.specs.Prelude.{◌≡◌, ◌+◌, ◌*◌, ◌≤◌, length};
ghost use Rattle.model.specs.Counters.{unreported, gone_with};
ghost use Rattle.site_counters.specs.Stored.{stored_at, set_counter, counter_of, PartsWithin};

use model::{Left, Word};

// A counter as memory holds it: document 01's slot, a code, a count, an overcount and a sent
// number.
#[derive(Clone, Copy)]
pub struct StoredCounter {
    pub item: Word,
    pub count: Word,
    pub overestimate: Word,
    pub reported: Word,
}

// The counter at a place. Internal: `test_site_memory` decides that all counters lie within the
// memory.
pub fn counter_at(memory: &[Word], place: usize) -> StoredCounter
    requires { 4 * place + 4 ≤ length memory.now }
    ensures { counter_of result ≡ stored_at memory.now place }
{
    let start = 4 * place;
    StoredCounter {
        item: memory[start],
        count: memory[start + 1],
        overestimate: memory[start + 2],
        reported: memory[start + 3],
    }
}

// A counter stored at a place. Internal, as `counter_at`.
pub fn put_counter(memory: &mut [Word], place: usize, counter: StoredCounter)
    requires { 4 * place + 4 ≤ length memory.old }
    ensures { memory.new ≡ set_counter memory.old place (counter_of counter) }
{
    let start = 4 * place;
    memory[start] = counter.item;
    memory[start + 1] = counter.count;
    memory[start + 2] = counter.overestimate;
    memory[start + 3] = counter.reported;
}

// The unreported arrivals of a counter. Internal: `test_site_memory` decides that overcount and
// sent number are within the count.
pub fn unreported_of(counter: StoredCounter) -> Word
    requires { PartsWithin (counter_of counter) }
    ensures { result ≡ unreported (counter_of counter) }
{
    counter.count - counter.overestimate - counter.reported
}

// How many unreported arrivals went with the item that left.
pub fn gone_with(leaving: Option<Left>) -> Word
    ensures { result ≡ gone_with leaving }
{
    match leaving {
        None => 0,
        Some(left) => left.gone,
    }
}
