// Where a counter of one site stands in its lent memory (Space-Saving): the search for an item and
// the scan for the least count. The functions with a `requires` are internal; the test that decides
// it is `site_memory::test_site_memory`, which every call on a site makes first, or the batch
// call's start test.

#![tactic(auto)]

ghost use Rattle.std.specs.Prelude.{◌≡◌, ◌*◌, ◌≤◌, length};
ghost use Rattle.model.specs.Counters.{find, least_place};
ghost use Rattle.model.specs.SiteMemory.{counters_in};
ghost use Rattle.site_search.specs.Order.{ordered};

use model::Word;

// The lowest place of the item's counter, or the number of counters in use if it has none.
// Internal: `test_site_memory` decides that the counters in use lie within the memory.
pub fn find_counter(memory: &[Word], used: usize, item: Word) -> usize
    requires { 4 * used ≤ length memory.now }
    ensures { result ≡ find item (counters_in used memory.now) }
{
    let mut i = 0;
    // As it is: document 01 names the form, "as a loop that yields the found slot by break".
    let found = loop {
        if used <= i {
            break used;
        }
        if memory[4 * i] == item {
            break i;
        }
        i += 1;
    };
    found
}

// Whether a counter comes before another: by count, and of equals by item. Both are compared as one
// number, count first, so that the scan has no branch on equal counts, which nothing could foresee.
// As it is: a comparison of two tuples makes that branch.
pub fn is_before(count: Word, item: Word, least_count: Word, least_item: Word) -> bool
    ensures { result ≡ ordered count item least_count least_item }
{
    let rank = 4294967296 * (count as u64) + (item as u64);
    let least = 4294967296 * (least_count as u64) + (least_item as u64);
    rank < least
}

// The place of the least count, of equals the one of the least item. Internal, as `find_counter`.
pub fn least_counter(memory: &[Word], used: usize) -> usize
    requires { 4 * used ≤ length memory.now }
    ensures { result ≡ least_place (counters_in used memory.now) }
{
    let mut best = 0;
    for i in 1..used {
        if is_before(
            memory[4 * i + 1],
            memory[4 * i],
            memory[4 * best + 1],
            memory[4 * best],
        ) {
            best = i;
        }
    }
    best
}
