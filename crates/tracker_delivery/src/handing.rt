// A hand-over: the head of the messages that wait goes to whom it is for, or the next announcement
// is asked for. Whole values are small here: the records of all sites stay where they are. The
// functions are internal: the delivery alone calls them, and what they require follows from what
// it requires.
ghost use Rattle.std.specs.Prelude.{◌≡◌};
ghost use Rattle.tracker_delivery.specs.Holding.{goes_on};
ghost use Rattle.tracker_delivery.specs.Handing.{site_of_head, coordinator_change, HandAsks, HandSays};

use crate::Change;
use coordinator_kinds::Answered;
use messages::to_coordinator;
use model::{CoordinatorRecord, Phase, Settings, SiteRecord, Word};
use tracker_queue::{Queue, take_head};

// Whether a message waits, or the coordinator announces.
pub fn goes_on(coordinator: CoordinatorRecord, waiting: Queue) -> bool
    ensures { result ≡ goes_on coordinator waiting }
{
    waiting.count != 0 || matches!(coordinator.phase, Phase::Announcing(_))
}

// The site that the head of the messages that wait is for; 0 where it is for the coordinator, or
// none waits.
pub fn site_of_head(waiting: Queue) -> usize
    ensures { result ≡ site_of_head waiting }
{
    if waiting.count == 0 || to_coordinator(waiting.first) {
        return 0;
    }
    waiting.first.site as usize
}

// The coordinator's answer, with so many messages waiting still.
fn coordinator_change(own: SiteRecord, waiting: Queue, answer: Answered) -> Change
    ensures { result ≡ coordinator_change own waiting answer }
{
    Change {
        site: own,
        coordinator: answer.coordinator,
        waiting,
        count: answer.count,
        out: answer.out,
    }
}

// One step of a delivery: the head of the messages that wait is handed over, or, where none waits,
// the next announcement is asked for. `own` is the record of the site that the head is for.
// Internal: `deliver` alone calls it, in a delivery that goes on.
pub fn hand_over(
    settings: Settings,
    own: SiteRecord,
    coordinator: CoordinatorRecord,
    waiting: Queue,
    site_memory: &[Word],
    coordinator_memory: &mut [u64],
) -> Change
    requires { HandAsks settings own coordinator waiting
        site_memory.now coordinator_memory.old }
    ensures { HandSays settings own coordinator waiting site_memory.now
        coordinator_memory.old coordinator_memory.new result }
{
    if waiting.count == 0 {
        let answer = coordinator_steps::announce_step(settings, coordinator);
        return coordinator_change(own, waiting, answer);
    }
    let message = waiting.first;
    let rest = take_head(waiting);
    if to_coordinator(message) {
        let answer = coordinator_steps::receive_step(
            settings,
            coordinator,
            message,
            coordinator_memory,
        );
        return coordinator_change(own, rest, answer);
    }
    let start = (message.site as usize) * site_memory::site_words(settings);
    let answer = site_receiving::receive_step(settings, own, message, &site_memory[start..]);
    Change {
        site: answer.site,
        coordinator,
        waiting: rest,
        count: answer.count,
        out: answer.reply,
    }
}
