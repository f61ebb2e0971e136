// A site's record and lent memory: how long it is, and whether it is consistent (refusals 4 and
// 11). The entry points of crate `site` and the batch call test by these functions.

#![tactic(auto)]

ghost use Rattle.std.specs.Prelude.{◌≡◌, ◌+◌, ◌*◌, ◌≤◌, eqb, length, take, drop};
ghost use Rattle.model.specs.Refusals.{no_refusal, refusal_told};
ghost use Rattle.model.specs.Limits.{value_count};
ghost use Rattle.model.specs.Settings.{settings_refusal};
ghost use Rattle.model.specs.Site.{up_to};
ghost use Rattle.model.specs.SiteMemory.{site_words, sum, site_consistent, site_memory_refusal};
ghost use Rattle.site_memory.specs.Promises.{counter_passes, counters_pass, numbers_pass, MemoryFits, ValuesFit};

use model::{Refusal, SITE_LIMIT, Settings, SiteRecord, VALUE_COUNT, Word};

// The numbers of one site's memory: four for each counter, and the histogram. Internal:
// `settings::test_settings` decides what it requires.
pub fn site_words(settings: Settings) -> usize
    requires { settings_refusal settings ≡ no_refusal }
    ensures { result ≡ site_words settings }
{
    4 * (settings.capacity as usize) + VALUE_COUNT
}

// Whether the counter at a place is consistent. The sums are compared by differences, so that
// nothing overflows whatever the memory holds, and each difference is taken once: a call at a deck
// tests every slot in use.
fn counter_consistent(settings: Settings, site: SiteRecord, memory: &[Word], place: usize) -> bool
    requires { 4 * place + 4 ≤ length memory.now }
    ensures { result ≡ counter_passes settings site memory.now place }
{
    let counter = site_counters::counter_at(memory, place);
    // As it is: with these two joined to the last by `&&`, a branch of the loop lies, in the
    // library, across 32 bytes, and the loop takes almost twice its time.
    if counter.item >= settings.universe || (counter.count as u64) > site.arrivals {
        return false;
    }
    let Some(own) = counter.count.checked_sub(counter.overestimate) else {
        return false;
    };
    let Some(unreported) = own.checked_sub(counter.reported) else {
        return false;
    };
    (unreported as u64) < site.threshold
}

// Whether every counter in use is consistent. A call at a deck with many slots spends most of its
// time in this loop, so it is not built into its callers: alone it begins, in the library, at a
// multiple of 64 bytes, and its branches lie where its own text puts them (docs/DECISIONS.md 131).
#[inline(never)]
fn counters_consistent(settings: Settings, site: SiteRecord, memory: &[Word], used: usize) -> bool
    requires { 4 * used ≤ length memory.now }
    ensures { result ≡ counters_pass settings site memory.now used }
{
    for i in 0..used {
        if !counter_consistent(settings, site, memory, i) {
            return false;
        }
    }
    true
}

// The sum of counts of a histogram. No test stands among the additions, so that the compiler can
// make several at once: 1024 numbers of 4 bytes sum to less than 8 bytes hold, whatever the memory
// holds.
fn sum_of_counts(counts: &[Word]) -> u64
    requires { length counts.now ≤ value_count }
    ensures { result ≡ sum counts.now }
{
    let mut counted: u64 = 0;
    for count in counts {
        counted += *count as u64;
    }
    counted
}

// Whether the histogram that starts at `from` sums to `total`.
fn values_sum_to(memory: &[Word], from: usize, total: u64) -> bool
    requires { from + value_count ≤ length memory.now }
    ensures { result ≡ eqb (sum (take value_count (drop from memory.now))) total }
{
    sum_of_counts(&memory[from..from + VALUE_COUNT]) == total
}

// Whether the single numbers of a site's record are consistent. A threshold of 0 has nothing below
// it, so no pending number is.
fn numbers_consistent(settings: Settings, site: SiteRecord) -> bool
    ensures { result ≡ numbers_pass settings site }
{
    site.used <= settings.capacity as u64
        && site.arrivals <= SITE_LIMIT
        && site.pending < site.threshold
        && site.threshold <= SITE_LIMIT
        && site.dropped <= site.arrivals
}

// Whether a site's record and memory are consistent (refusal 11). Internal: the rows before it in
// `test_site_memory`, and in the batch call's start test, decide what it requires.
pub fn site_consistent(settings: Settings, site: SiteRecord, memory: &[Word]) -> bool
    requires { MemoryFits settings memory.now }
    ensures { result ≡ site_consistent settings site memory.now }
{
    numbers_consistent(settings, site)
        && counters_consistent(settings, site, memory, site.used as usize)
        && values_sum_to(memory, 4 * (settings.capacity as usize), site.arrivals)
}

// What every call on a site tests first: refusals 1, 2, 3; then 4, 11.
pub fn test_site_memory(
    settings: Settings,
    site: SiteRecord,
    memory: &[Word],
) -> Result<(), Refusal>
    ensures { refusal_told result ≡ site_memory_refusal settings site memory.now }
{
    settings::test_settings(settings)?;
    if memory.len() < site_words(settings) {
        return Err(Refusal::MemoryTooShort);
    }
    if !site_consistent(settings, site, memory) {
        return Err(Refusal::MemoryInconsistent);
    }
    Ok(())
}

// The arrivals of a histogram at or below a value. Internal: `test_site_memory` decides that the
// histogram lies within the memory, `site_refusals::test_message` that the value is one.
pub fn count_up_to(memory: &[Word], from: usize, value: usize) -> u64
    requires { ValuesFit memory.now from value }
    ensures { result ≡ up_to value (take value_count (drop from memory.now)) }
{
    sum_of_counts(&memory[from..from + value + 1])
}
