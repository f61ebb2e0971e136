// What a step hands back, put together: an answer with a message or with none.
ghost use Rattle.std.specs.Prelude.{◌≡◌};
ghost use Rattle.coordinator_kinds.specs.Steps.{in_phase, spoken, silent};

use crate::Answered;
use messages::no_message;
use model::{CoordinatorRecord, Message, Phase};

// A record in another phase.
fn in_phase(coordinator: CoordinatorRecord, phase: Phase) -> CoordinatorRecord
    ensures { result ≡ in_phase coordinator phase }
{
    CoordinatorRecord {
        phase,
        ..coordinator
    }
}

// A message goes out, and the phase becomes the one given.
pub fn speak(coordinator: CoordinatorRecord, phase: Phase, out: Message) -> Answered
    ensures { result ≡ spoken coordinator phase out }
{
    Answered {
        coordinator: in_phase(coordinator, phase),
        count: 1,
        out,
    }
}

// No message goes out, and the phase becomes the one given.
pub fn keep_silent(coordinator: CoordinatorRecord, phase: Phase) -> Answered
    ensures { result ≡ silent coordinator phase }
{
    Answered {
        coordinator: in_phase(coordinator, phase),
        count: 0,
        out: no_message(),
    }
}
