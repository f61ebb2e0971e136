// What a coordinator does for each kind of message that it has accepted, without tests: kinds 1 and
// 2 in `reports`, kinds 4 and 6 in `rounds`; `answers` puts together what a step hands back. The
// functions are internal: the steps of crate `coordinator_steps` call them.

#![tactic(auto)]

ghost use Rattle.std.specs.Prelude.{◌≡◌};
ghost use Rattle.model.specs.Settings.{threshold_of};
ghost use Rattle.coordinator_kinds.specs.Steps.{ThresholdAsks};

use model::{CoordinatorRecord, Message, Settings, THRESHOLD_FACTOR};

pub mod answers;
pub mod reports;
pub mod rounds;

// What a step hands back: the record after it, the number of messages that go out (0 or 1) and the
// message, all zeros where there is none.
#[derive(Clone, Copy)]
pub struct Answered {
    pub coordinator: CoordinatorRecord,
    pub count: u32,
    pub out: Message,
}

// The threshold that a base gives. Internal: `test_coordinator_memory`, with which every call
// begins, decides what it requires: accepted settings, and a base within the limit.
pub fn threshold_of(settings: Settings, base: u64) -> u64
    requires { ThresholdAsks settings base }
    ensures { result ≡ threshold_of settings base }
{
    let share = (settings.epsilon as u64) * base;
    let parts = THRESHOLD_FACTOR * (settings.sites as u64);
    (share / parts).max(1)
}
