// The delivery that an arrival sets off in a network: each message that goes out is written to the
// log, counted and handed over, in the order of going out, to the site or the coordinator it is
// for, until nothing waits and the coordinator is idle. These functions are internal: they test
// nothing, and require what the batch call has tested. Every rule stands in the steps of the site
// and of the coordinator; the delivery only carries messages.

#![tactic(auto)]

ghost use Rattle.std.specs.Prelude.{◌≡◌, ◌<◌, get_or};
ghost use Rattle.model.specs.Limits.{most_sites};
ghost use Rattle.model.specs.Held.{no_record, with_record};
ghost use Rattle.tracker_delivery.specs.UnderwayParts.{resting, underway_of, ended_of};
ghost use Rattle.tracker_delivery.specs.Holding.{carrying, Delivering, EndSays};
ghost use Rattle.tracker_delivery.specs.Arriving.{SiteAsks, SiteSays, MessagesAsk, MessagesSay};

use crate::handing::{goes_on, hand_over, site_of_head};
use model::{Arrival, CoordinatorRecord, Message, SITE_RECORDS, Settings, SiteRecord, Sites, Word};
use site_steps::Observed;
use tracker_queue::{Queue, Traffic, empty_queue, send_answer, send_two};

mod handing;

// A delivery that has come to its end: the records of the network, and the messages written to the
// log so far.
#[derive(Clone, Copy)]
pub struct Ended {
    pub records: [SiteRecord; SITE_RECORDS],
    pub coordinator: CoordinatorRecord,
    pub written: u64,
}

// What a hand-over changes: the record of the site that the head is for, the coordinator's and the
// messages that wait; and the answer, if `count` is 1. Where the head is for no site, no site's
// record changes, and that of site 0 stands here as it is.
#[derive(Clone, Copy)]
pub struct Change {
    pub site: SiteRecord,
    pub coordinator: CoordinatorRecord,
    pub waiting: Queue,
    pub count: u32,
    pub out: Message,
}

// The record of one site. Internal: the batch call looks at a site that
// `site_refusals::test_address` (5, 6) has let pass, in a network whose settings passed 1 to 3,
// so that there is such a record.
pub fn record_of(sites: Sites, which: usize) -> SiteRecord
    requires { which < most_sites }
    ensures { result ≡ get_or sites.records which no_record }
{
    sites.records[which]
}

// The record of one site changed. Internal, as `record_of`.
pub fn with_record(mut sites: Sites, which: usize, numbers: SiteRecord) -> Sites
    requires { which < most_sites }
    ensures { result ≡ with_record sites which numbers }
{
    sites.records[which] = numbers;
    sites
}

// A delivery to its end. The records of the sites are changed in their places here, and handed to
// no function: 32 of them would be copied for each message. The counts of messages are lent.
fn deliver(
    settings: Settings,
    mut records: [SiteRecord; SITE_RECORDS],
    mut coordinator: CoordinatorRecord,
    mut traffic: Traffic,
    site_memory: &[Word],
    coordinator_memory: &mut [u64],
    log: &mut [u64],
    counts: &mut [u64; SITE_RECORDS],
) -> Ended
    requires { Delivering settings
        (carrying (underway_of records counts.old coordinator traffic)
        site_memory.now coordinator_memory.old log.old) }
    ensures { EndSays settings
        (carrying (underway_of records counts.old coordinator traffic)
        site_memory.now coordinator_memory.old log.old)
        (carrying (ended_of result counts.new) site_memory.now
        coordinator_memory.new log.new) }
{
    while goes_on(coordinator, traffic.waiting) {
        let which = site_of_head(traffic.waiting);
        let by = hand_over(
            settings,
            records[which],
            coordinator,
            traffic.waiting,
            site_memory,
            coordinator_memory,
        );
        records[which] = by.site;
        coordinator = by.coordinator;
        traffic.waiting = by.waiting;
        traffic = send_answer(traffic, by.count, by.out, counts, log);
    }
    Ended {
        records,
        coordinator,
        written: traffic.written,
    }
}

// An arrival at its site, which stands there with the record `own` and a part of the memory: the
// record then, and the messages that are to go out. Internal: what it requires is decided by the
// batch call's tests, `tracker_memory::test_network` (1 to 4, 11) when it starts and the refusal
// of each arrival (5 to 8, 14) before it calls this.
pub fn observe(
    settings: Settings,
    own: SiteRecord,
    arrival: Arrival,
    site_memory: &mut [Word],
) -> Observed
    requires { SiteAsks settings own arrival site_memory.old }
    ensures { SiteSays settings own arrival
        site_memory.old site_memory.new result }
{
    let start = (arrival.site as usize) * site_memory::site_words(settings);
    site_steps::observe_step(settings, own, arrival, &mut site_memory[start..])
}

// The messages of an arrival that its site has taken go out, with full delivery. For each message a
// record of the log is written, and it is counted for the site that it names. Internal, as
// `observe` is.
pub fn deliver_messages(
    settings: Settings,
    records: [SiteRecord; SITE_RECORDS],
    coordinator: CoordinatorRecord,
    written: u64,
    out: Queue,
    site_memory: &[Word],
    coordinator_memory: &mut [u64],
    log: &mut [u64],
    counts: &mut [u64; SITE_RECORDS],
) -> Ended
    requires { MessagesAsk settings out
        (carrying (resting records counts.old coordinator written)
        site_memory.now coordinator_memory.old log.old) }
    ensures { MessagesSay settings out
        (carrying (resting records counts.old coordinator written)
        site_memory.now coordinator_memory.old log.old)
        (carrying (ended_of result counts.new) site_memory.now
        coordinator_memory.new log.new) }
{
    let traffic = Traffic {
        written,
        waiting: empty_queue(),
    };
    let begun = send_two(traffic, out.count, out.first, out.second, counts, log);
    deliver(
        settings,
        records,
        coordinator,
        begun,
        site_memory,
        coordinator_memory,
        log,
        counts,
    )
}
