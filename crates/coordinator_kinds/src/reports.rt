// Kinds 1 and 2, at a coordinator that is idle: the reports of an item and of a count. They touch
// one number of the memory at most. The functions are internal: `receive_step` alone calls them,
// and what they require follows from what it requires, which the tests of `receive` decide.
ghost use Rattle.std.specs.Prelude.{◌≡◌, ◌+◌, eqb, if◌then◌else◌};
ghost use Rattle.model.specs.Site.{one_more_at};
ghost use Rattle.model.specs.Coordinator.{takes_item_report, takes_count_report};
ghost use Rattle.model.specs.CoordinatorMemory.{coordinator_in};
ghost use Rattle.coordinator_kinds.specs.Steps.{ItemReportAsks, CountReportAsks, ValueRoom, KindSays};

use crate::Answered;
use crate::answers::{keep_silent, speak};
use messages::poll_of;
use model::{CoordinatorRecord, Message, Phase, Settings};

// A kind 1 at an idle coordinator. Internal: `receive` tests that its item is known.
pub fn take_item_report(
    settings: Settings,
    coordinator: CoordinatorRecord,
    message: Message,
    memory: &mut [u64],
) -> Answered
    requires { ItemReportAsks settings message memory.old }
    ensures { KindSays (takes_item_report (coordinator_in settings coordinator
        memory.old) message) memory.old memory.new result }
{
    let item = message.a as usize;
    memory[item] += message.b;
    keep_silent(coordinator, coordinator.phase)
}

// While the threshold is 1, an arrival's value is counted.
fn count_value(settings: Settings, threshold: u64, value: u64, memory: &mut [u64])
    requires { threshold ≡ 1 → ValueRoom settings value memory.old }
    ensures { memory.new ≡ (if eqb threshold 1 then one_more_at memory.old
        (settings.universe + value) else memory.old) }
{
    if threshold == 1 {
        let place = (settings.universe as usize) + (value as usize);
        memory[place] += 1;
    }
}

// A kind 2 at an idle coordinator. The last of a round starts the collecting. Internal: `receive`
// tests the signals, and the value while values are counted.
pub fn take_count_report(
    settings: Settings,
    coordinator: CoordinatorRecord,
    message: Message,
    memory: &mut [u64],
) -> Answered
    requires { CountReportAsks settings coordinator message memory.old }
    ensures { KindSays (takes_count_report settings
        (coordinator_in settings coordinator memory.old) message) memory.old
        memory.new result }
{
    count_value(settings, coordinator.threshold, message.b, memory);
    let next = CoordinatorRecord {
        total: coordinator.total + message.a,
        signals: coordinator.signals + 1,
        ..coordinator
    };
    if next.signals == settings.sites {
        return speak(next, Phase::Collecting(0), poll_of(0));
    }
    keep_silent(next, Phase::Idle)
}
