// A delivery by the public calls, from the messages that wait until all is at rest. The functions
// with a `requires` are internal: `single_delivery::deliver_arrival` makes the tests that decide
// it.

#![tactic(auto)]

ghost use Rattle.std.specs.Prelude.{◌≡◌};
ghost use Rattle.single_steps.specs.Progress.{progress_outcome, is_due};
ghost use Rattle.single_steps.specs.Steps.{DeliverByCallsAsks, DeliverByCallsSays};

use crate::calls::take_step;
use model::{CoordinatorRecord, Phase, Refusal, Settings, Sites, Word};
use tracker_queue::Queue;

mod calls;

// A delivery in progress: both records, the messages that wait, how many went out so far, why the
// last call was refused, if it was, and how many calls may still be made.
#[derive(Clone, Copy)]
pub struct Progress {
    pub sites: Sites,
    pub coordinator: CoordinatorRecord,
    pub waiting: Queue,
    pub carried: u64,
    pub refusal: Option<Refusal>,
    pub left: u64,
}

// Call by call, until none is due. Internal.
pub fn deliver(
    settings: Settings,
    first: Progress,
    site_memory: &[Word],
    coordinator_memory: &mut [u64],
) -> Progress
    requires { DeliverByCallsAsks settings site_memory.now (progress_outcome first) }
    ensures { DeliverByCallsSays settings site_memory.now
        coordinator_memory.old coordinator_memory.new (progress_outcome first)
        (progress_outcome result) }
{
    let mut progress = first;
    while call_due(progress) {
        progress.left -= 1;
        progress = take_step(settings, progress, site_memory, coordinator_memory);
    }
    progress
}

// Whether a call is due, and may be made: a message waits, or the coordinator announces.
fn call_due(progress: Progress) -> bool
    ensures { result ≡ is_due (progress_outcome progress) }
{
    progress.refusal.is_none()
        && progress.left != 0
        && (progress.waiting.count != 0
            || matches!(progress.coordinator.phase, Phase::Announcing(_)))
}
