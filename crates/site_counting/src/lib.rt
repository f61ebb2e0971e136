// The counting of an arrival's item in the counters of one site (Space-Saving). Internal, as the
// functions of `site_counters` and `site_search` that have a `requires`.

#![tactic(auto)]

ghost use Rattle.site_counting.specs.Count.{CountItemAsks, CountItemSays};

use model::{Left, Word};
use site_counters::{StoredCounter, counter_at, put_counter, unreported_of};
use site_search::{find_counter, least_counter};

// What counting an item did: the place of its counter, the counters in use then, the counter, and
// who left for it (request N1).
#[derive(Clone, Copy)]
pub struct Counted {
    pub place: usize,
    pub used: usize,
    pub counter: StoredCounter,
    pub leaving: Option<Left>,
}

// An item counted: in its own counter, in the next unused one, or in place of the least. Internal:
// `test_site_memory` decides that there is a counter, that all lie within the memory, that no
// count is above the site's limit, and that overcount and sent number are within the count.
pub fn count_item(memory: &mut [Word], capacity: usize, used: usize, item: Word) -> Counted
    requires { CountItemAsks memory.old capacity used }
    ensures { CountItemSays memory.old memory.new capacity used item result }
{
    let found = find_counter(memory, used, item);
    if found < used {
        let old = counter_at(memory, found);
        let more = StoredCounter {
            count: old.count + 1,
            ..old
        };
        put_counter(memory, found, more);
        return Counted {
            place: found,
            used,
            counter: more,
            leaving: None,
        };
    }
    if used < capacity {
        let first = StoredCounter {
            item,
            count: 1,
            overestimate: 0,
            reported: 0,
        };
        put_counter(memory, used, first);
        return Counted {
            place: used,
            used: used + 1,
            counter: first,
            leaving: None,
        };
    }
    let least = least_counter(memory, used);
    let replaced = counter_at(memory, least);
    let gone = unreported_of(replaced);
    let replacing = StoredCounter {
        item,
        count: replaced.count + 1,
        overestimate: replaced.count,
        reported: 0,
    };
    put_counter(memory, least, replacing);
    Counted {
        place: least,
        used,
        counter: replacing,
        leaving: Some(Left {
            item: replaced.item,
            gone,
        }),
    }
}
