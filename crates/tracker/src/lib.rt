// The batch call: document 01's call over many draws. Refusals 1 to 4 and 11 are tested once, when
// the call starts; then each arrival is tested and delivered, until one is refused. Its parts are
// those of crate `tracker_steps`.

#![tactic(auto)]

ghost use Rattle.std.specs.Prelude.{[], ◌∷◌};
ghost use Rattle.model.specs.Held.{held_by};
ghost use Rattle.tracker_steps.specs.Steps.{batch_outcome, batch_held};
ghost use Rattle.tracker.specs.Batch.{BatchSays};

use model::{Arrival, CoordinatorRecord, Settings, Sites, Word};
use tracker_arrivals::{deliver_turn, take_arrival};
use tracker_steps::{BatchAnswer, open_batch, place_of, take_turn};

// A batch of one arrival: for callers that hold no run of arrivals.
pub fn run_one(
    settings: Settings,
    sites: Sites,
    coordinator: CoordinatorRecord,
    arrival: Arrival,
    site_memory: &mut [Word],
    coordinator_memory: &mut [u64],
    log: &mut [u64],
) -> BatchAnswer
    ensures { BatchSays (record {
      settings = settings;
      held = held_by sites coordinator site_memory.old
          coordinator_memory.old;
      arrivals = arrival ∷ [];
      log = log.old;
    })
        (batch_held (batch_outcome result) site_memory.new coordinator_memory.new
        log.new) }
{
    let answer = open_batch(
        settings,
        sites,
        coordinator,
        site_memory,
        coordinator_memory,
    );
    if answer.refusal.is_none() {
        return take_arrival(
            settings,
            answer,
            arrival,
            site_memory,
            coordinator_memory,
            log,
        );
    }
    answer
}

// The batch call: a lent run of arrivals, walked one by one until one is refused. The site's record
// is read and stored where it stands, and so is the count of arrivals: the answer is 1.6 KB, and a
// function that took it and gave it back (`take_arrival`) would copy it at every arrival. The
// counts of messages stand by themselves meanwhile, and are lent to what counts.
pub fn run_batch(
    settings: Settings,
    sites: Sites,
    coordinator: CoordinatorRecord,
    arrivals: &[Arrival],
    site_memory: &mut [Word],
    coordinator_memory: &mut [u64],
    log: &mut [u64],
) -> BatchAnswer
    ensures { BatchSays (record {
      settings = settings;
      held = held_by sites coordinator site_memory.old
          coordinator_memory.old;
      arrivals = arrivals.now;
      log = log.old;
    })
        (batch_held (batch_outcome result) site_memory.new coordinator_memory.new
        log.new) }
{
    let mut answer = open_batch(
        settings,
        sites,
        coordinator,
        site_memory,
        coordinator_memory,
    );
    if answer.refusal.is_some() {
        return answer;
    }
    let mut counts = answer.sites.messages;
    for arrival in arrivals {
        let which = place_of(*arrival);
        let tried = take_turn(
            settings,
            answer.sites.records[which],
            answer.written,
            *arrival,
            log.len(),
            site_memory,
        );
        let turn = match tried {
            Ok(turn) => turn,
            Err(refusal) => {
                answer.refusal = Some(refusal);
                break;
            }
        };
        answer.sites.records[which] = turn.site;
        answer.accepted += turn.taken;
        if turn.out.count != 0 {
            let after = deliver_turn(
                settings,
                answer.sites.records,
                answer.coordinator,
                answer.written,
                turn.out,
                site_memory,
                coordinator_memory,
                log,
                &mut counts,
            );
            let records = after.records;
            answer.sites.records = records;
            answer.coordinator = after.coordinator;
            answer.written = after.written;
        }
    }
    answer.sites.messages = counts;
    answer
}
