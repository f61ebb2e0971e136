// One arrival of the batch call after its turn at its site: the answer that counts it, and its
// messages with full delivery. The functions are internal: the calls of crate `tracker` call them.

#![tactic(auto)]

ghost use Rattle.std.specs.Prelude.{◌≡◌};
ghost use Rattle.tracker_steps.specs.Steps.{OneAsks, OneSays, batch_outcome, batch_held};
ghost use Rattle.tracker_steps.specs.Turns.{taken_outcome};
ghost use Rattle.tracker_delivery.specs.UnderwayParts.{resting, ended_of};
ghost use Rattle.tracker_delivery.specs.Holding.{carrying};
ghost use Rattle.tracker_delivery.specs.Arriving.{MessagesAsk};
ghost use Rattle.tracker_arrivals.specs.Counting.{counted, CountTurnAsks, SentSays, DeliverTurnAsks, DeliverTurnSays};

use model::{Arrival, CoordinatorRecord, SITE_RECORDS, Settings, SiteRecord, Sites, Word};
use tracker_delivery::{Ended, deliver_messages, record_of, with_record};
use tracker_queue::Queue;
use tracker_steps::{BatchAnswer, Turn};

// The answer with an accepted arrival's turn in it, of the site at this place.
fn count_turn(answer: BatchAnswer, which: usize, turn: Turn) -> BatchAnswer
    requires { CountTurnAsks (batch_outcome answer) which (taken_outcome turn) }
    ensures { batch_outcome result
        ≡ counted (batch_outcome answer) which (taken_outcome turn) }
{
    BatchAnswer {
        refusal: None,
        accepted: answer.accepted + turn.taken,
        sites: with_record(answer.sites, which, turn.site),
        ..answer
    }
}

// The messages of a turn, with full delivery: what changes of the answer is handed over and handed
// back, part by part, and the counts of messages are lent, so that an arrival with messages copies
// no more than the records of the sites. Internal: it follows `tracker_steps::take_turn`, once the
// turn is counted in the answer.
pub fn deliver_turn(
    settings: Settings,
    records: [SiteRecord; SITE_RECORDS],
    coordinator: CoordinatorRecord,
    written: u64,
    out: Queue,
    site_memory: &mut [Word],
    coordinator_memory: &mut [u64],
    log: &mut [u64],
    counts: &mut [u64; SITE_RECORDS],
) -> Ended
    requires { MessagesAsk settings out
        (carrying (resting records counts.old coordinator written)
        site_memory.old coordinator_memory.old log.old) }
    ensures { SentSays settings out
        (carrying (resting records counts.old coordinator written)
        site_memory.old coordinator_memory.old log.old)
        (carrying (ended_of result counts.new) site_memory.new
        coordinator_memory.new log.new) }
{
    deliver_messages(
        settings,
        records,
        coordinator,
        written,
        out,
        site_memory,
        coordinator_memory,
        log,
        counts,
    )
}

// The messages of a turn, and the answer then.
fn deliver_counted(
    settings: Settings,
    answer: BatchAnswer,
    out: Queue,
    site_memory: &mut [Word],
    coordinator_memory: &mut [u64],
    log: &mut [u64],
) -> BatchAnswer
    requires { DeliverTurnAsks settings out
        (batch_held (batch_outcome answer) site_memory.old coordinator_memory.old log.old) }
    ensures { DeliverTurnSays settings out
        (batch_held (batch_outcome answer) site_memory.old coordinator_memory.old
        log.old)
        (batch_held (batch_outcome result) site_memory.new coordinator_memory.new
        log.new) }
{
    let mut counts = answer.sites.messages;
    let after = deliver_turn(
        settings,
        answer.sites.records,
        answer.coordinator,
        answer.written,
        out,
        site_memory,
        coordinator_memory,
        log,
        &mut counts,
    );
    let records = after.records;
    BatchAnswer {
        refusal: None,
        accepted: answer.accepted,
        written: after.written,
        sites: Sites {
            records,
            messages: counts,
        },
        coordinator: after.coordinator,
    }
}

// One arrival of a batch, from its turn to its last message: what `run_batch` does in place.
// Internal: `tracker::run_one` alone calls it, after `tracker_steps::open_batch` has accepted.
pub fn take_arrival(
    settings: Settings,
    answer: BatchAnswer,
    arrival: Arrival,
    site_memory: &mut [Word],
    coordinator_memory: &mut [u64],
    log: &mut [u64],
) -> BatchAnswer
    requires { OneAsks settings
        (batch_held (batch_outcome answer) site_memory.old coordinator_memory.old log.old) }
    ensures { OneSays settings arrival
        (batch_held (batch_outcome answer) site_memory.old coordinator_memory.old
        log.old)
        (batch_held (batch_outcome result) site_memory.new coordinator_memory.new
        log.new) }
{
    let which = tracker_steps::place_of(arrival);
    let own = record_of(answer.sites, which);
    let tried = tracker_steps::take_turn(
        settings,
        own,
        answer.written,
        arrival,
        log.len(),
        site_memory,
    );
    match tried {
        Ok(turn) => {
            let next = count_turn(answer, which, turn);
            if turn.out.count == 0 {
                return next;
            }
            deliver_counted(
                settings,
                next,
                turn.out,
                site_memory,
                coordinator_memory,
                log,
            )
        }
        Err(refusal) => BatchAnswer {
            refusal: Some(refusal),
            ..answer
        },
    }
}
