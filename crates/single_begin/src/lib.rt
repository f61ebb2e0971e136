// The first call of a delivery: the arrival at its site. The functions are internal: what they
// require is what `single_delivery::deliver_arrival` has tested.

#![tactic(auto)]

ghost use Rattle.std.specs.Prelude.{◌≡◌, IfOk};
ghost use Rattle.model.specs.Refusals.{no_refusal};
ghost use Rattle.tracker_delivery.specs.Stops.{stop_number};
ghost use Rattle.single_steps.specs.Progress.{QueueSays};
ghost use Rattle.single_begin.specs.Arriving.{most_calls, begun_outcome, BeginDeliveryAsks, BeginDeliverySays};

use model::{Arrival, CoordinatorRecord, Message, Refusal, Settings, Sites, Word};
use single_steps::Progress;
use tracker_delivery::{record_of, with_record};
use tracker_queue::Queue;

// How many calls a delivery may take: no delivery has more than its messages, each handed over, and
// a kind 7 asked for of each site; here is one more. The loop ends by itself before them: it counts
// down from here only so that it plainly ends.
fn most_calls(settings: Settings) -> u64
    ensures { result ≡ most_calls settings }
{
    settings::most_messages(settings) + (settings.sites as u64) + 1
}

// The messages that an arrival's answer hands out, as those that wait.
fn queue_of(count: u32, first: Message, second: Message) -> Queue
    ensures { QueueSays count first second result }
{
    if count < 2 {
        return Queue {
            count,
            first,
            second,
        };
    }
    Queue {
        count: 2,
        first,
        second,
    }
}

// The arrival goes to its site, with that site's record and the memory from the start of its part
// on. Its messages wait, and are counted.
pub fn begin(
    settings: Settings,
    sites: Sites,
    coordinator: CoordinatorRecord,
    arrival: Arrival,
    site_memory: &mut [Word],
) -> Result<Progress, Refusal>
    requires { BeginDeliveryAsks settings arrival site_memory.old }
    ensures says { BeginDeliverySays settings arrival sites coordinator site_memory.old
        site_memory.new (begun_outcome settings sites coordinator result) }
    ensures goes_on { IfOk result (λ begun. stop_number begun.refusal ≡ no_refusal) }
{
    let which = arrival.site as usize;
    let start = which * site_memory::site_words(settings);
    let numbers = record_of(sites, which);
    let observed = site::observe(settings, numbers, arrival, &mut site_memory[start..])?;
    let waiting = queue_of(observed.count, observed.first, observed.second);
    Ok(Progress {
        sites: with_record(sites, which, observed.site),
        coordinator,
        waiting,
        carried: waiting.count as u64,
        refusal: None,
        left: most_calls(settings),
    })
}
