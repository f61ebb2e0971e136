// The step of a site on a draw: what it does to the site's record and memory. It tests nothing. A
// site's memory is handed over as a slice that may be longer than it needs.

#![tactic(auto)]

ghost use Rattle.std.specs.Prelude.{◌≡◌, ◌+◌, ◌<◌, leb, eqb, length, get_or, if◌then◌else◌};
ghost use Rattle.model.specs.Site.{one_more_at};
ghost use Rattle.site_counters.specs.Stored.{greatest_word, counter_of};
ghost use Rattle.site_steps.specs.Steps.{ReportAsks, StoredReportSays, DueSays, ObserveAsks, StoreSays, ObserveStepSays};

use messages::{count_report_of, item_report_of, no_message};
use model::{Arrival, Message, Settings, SiteRecord, Word};
use site_counters::{StoredCounter, gone_with, unreported_of};

// What an arrival leads to: the site's record then, and the messages that go out, of which there
// are `count`; an absent one is all zeros.
// As it is: the clause `ObserveStepSays` speaks of a count and of two messages.
#[derive(Clone, Copy)]
pub struct Observed {
    pub site: SiteRecord,
    pub count: u32,
    pub first: Message,
    pub second: Message,
}

// A counter reported if its unreported arrivals reach the threshold, and whether they do.
fn report_counter(memory: &mut [Word], place: usize, counter: StoredCounter, threshold: u64) -> bool
    requires { ReportAsks memory.old place (counter_of counter) }
    ensures { StoredReportSays memory.old memory.new place counter threshold result }
{
    let unreported = unreported_of(counter);
    if threshold <= unreported as u64 {
        memory[4 * place + 3] = counter.reported + threshold as Word;
        return true;
    }
    false
}

// One more arrival of the value that stands at a place of the memory.
fn count_value(memory: &mut [Word], place: usize)
    requires { (place < length memory.old) × (get_or memory.old place 0 < greatest_word) }
    ensures { memory.new ≡ one_more_at memory.old place }
{
    memory[place] += 1;
}

// What is pending after an arrival, which reports the count if it reaches the threshold.
fn pending_after(threshold: u64, pending: u64) -> u64
    ensures { result ≡ (if leb threshold pending then 0 else pending) }
{
    if threshold <= pending { 0 } else { pending }
}

// The value that a count report carries: only while the threshold is 1.
fn value_reported(threshold: u64, value: u32) -> u64
    ensures { result ≡ (if eqb threshold 1 then value else 0) }
{
    if threshold == 1 { value as u64 } else { 0 }
}

// The messages that are due, in order, with the site's record.
fn gather(site: SiteRecord, item_report: Option<Message>, count_report: Option<Message>) -> Observed
    ensures { DueSays site item_report count_report result }
{
    match (item_report, count_report) {
        (Some(item_report), Some(count_report)) => Observed {
            site,
            count: 2,
            first: item_report,
            second: count_report,
        },
        (Some(report), None) | (None, Some(report)) => Observed {
            site,
            count: 1,
            first: report,
            second: no_message(),
        },
        (None, None) => Observed {
            site,
            count: 0,
            first: no_message(),
            second: no_message(),
        },
    }
}

// What an arrival stored: the counters in use then, whether its item is to be reported, and how
// many unreported arrivals went with an item that left.
#[derive(Clone, Copy)]
pub struct StoredArrival {
    pub used: usize,
    pub due: bool,
    pub gone: Word,
}

// An arrival in a site's memory: its item counted, and reported if that is due; its value counted.
// Beyond the search and the scan one counter and one value are touched.
fn store_arrival(
    settings: Settings,
    site: SiteRecord,
    arrival: Arrival,
    memory: &mut [Word],
) -> StoredArrival
    requires { ObserveAsks settings site arrival memory.old }
    ensures { StoreSays settings site arrival memory.old memory.new result }
{
    let capacity = settings.capacity as usize;
    let used = site.used as usize;
    let counted = site_counting::count_item(memory, capacity, used, arrival.item);
    let due = report_counter(memory, counted.place, counted.counter, site.threshold);
    count_value(memory, 4 * capacity + (arrival.value as usize));
    let gone = gone_with(counted.leaving);
    StoredArrival {
        used: counted.used,
        due,
        gone,
    }
}

// A draw at a site: stored, and then the messages that go out. Internal: what it requires is
// decided by `site_memory::test_site_memory`, `site_refusals::test_arrival` and
// `site_refusals::is_draw`, or by the tests of the batch call.
pub fn observe_step(
    settings: Settings,
    site: SiteRecord,
    arrival: Arrival,
    memory: &mut [Word],
) -> Observed
    requires { ObserveAsks settings site arrival memory.old }
    ensures { ObserveStepSays settings site arrival memory.old memory.new result }
{
    let stored = store_arrival(settings, site, arrival, memory);
    let pending = site.pending + 1;
    let after = SiteRecord {
        arrivals: site.arrivals + 1,
        pending: pending_after(site.threshold, pending),
        used: stored.used as u64,
        dropped: site.dropped + (stored.gone as u64),
        ..site
    };
    let item_report = item_report_of(arrival.site, arrival.item, site.threshold);
    let value = value_reported(site.threshold, arrival.value);
    let count_report = count_report_of(arrival.site, site.threshold, value);
    gather(
        after,
        stored.due.then_some(item_report),
        (site.threshold <= pending).then_some(count_report),
    )
}
