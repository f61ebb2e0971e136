// The steps of a coordinator, without tests: what a message that was accepted does to its record
// and memory. They are internal: the calls of crate `coordinator` and the batch call, which have
// tested settings, memory and message, call them.

#![tactic(auto)]

ghost use Rattle.std.specs.Prelude.{◌≡◌, List, ℕ};
ghost use Rattle.model.specs.Coordinator.{coordinator_receives, announced};
ghost use Rattle.model.specs.CoordinatorMemory.{coordinator_in};
ghost use Rattle.coordinator_kinds.specs.Steps.{KindSays, answer_of};
ghost use Rattle.coordinator_steps.specs.Ready.{StepAsks, AnnounceAsks};

use coordinator_kinds::Answered;
use coordinator_kinds::answers::{keep_silent, speak};
use coordinator_kinds::reports::{take_count_report, take_item_report};
use coordinator_kinds::rounds::{take_poll_answer, take_probe_answer};
use messages::announcement_of;
use model::{CoordinatorRecord, ITEM_REPORT, Message, Phase, Settings};

// The next kind 7 of a coordinator that announces; after the last it is at rest. In another phase
// it stays as it is. Internal: `next_announcement` of crate `coordinator` decides by its tests what
// it requires, and for a batch the tests at its start do.
pub fn announce_step(settings: Settings, coordinator: CoordinatorRecord) -> Answered
    requires { AnnounceAsks settings coordinator }
    ensures { (memory : List ℕ) → result ≡ answer_of
        (announced settings (coordinator_in settings coordinator memory)) }
{
    match coordinator.phase {
        Phase::Announcing(site) => {
            let out = announcement_of(site, coordinator.threshold, coordinator.base);
            if site + 1 < settings.sites {
                return speak(coordinator, Phase::Announcing(site + 1), out);
            }
            let next = CoordinatorRecord {
                signals: 0,
                ..coordinator
            };
            speak(next, Phase::Idle, out)
        }
        _ => keep_silent(coordinator, coordinator.phase),
    }
}

// Any message that is accepted. Kinds 1 and 2 touch one number of the memory at most, the others
// none. Internal: `receive` of crate `coordinator` decides by its tests what it requires, and for a
// batch the tests at its start do.
pub fn receive_step(
    settings: Settings,
    coordinator: CoordinatorRecord,
    message: Message,
    memory: &mut [u64],
) -> Answered
    requires { StepAsks settings coordinator message memory.old }
    ensures { KindSays (coordinator_receives settings
        (coordinator_in settings coordinator memory.old) message) memory.old
        memory.new result }
{
    match coordinator.phase {
        Phase::Idle => {
            if message.kind == ITEM_REPORT {
                return take_item_report(settings, coordinator, message, memory);
            }
            take_count_report(settings, coordinator, message, memory)
        }
        Phase::Collecting(site) => take_poll_answer(settings, coordinator, site, message),
        Phase::Probing(site, low, high, sum) => {
            take_probe_answer(settings, coordinator, site, low, high, sum, message)
        }
        Phase::Announcing(_) => keep_silent(coordinator, coordinator.phase),
    }
}
