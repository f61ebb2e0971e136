// The parts of the batch call: its start, and the turn of one arrival at its site; the rest of an
// arrival is in crate `tracker_arrivals`. The functions are internal: the calls of crate `tracker`
// call them. What some of them require is decided by `open_batch`, with which these calls begin,
// and holds after each accepted arrival.

#![tactic(auto)]

ghost use Rattle.std.specs.Prelude.{◌≡◌, ◌-◌, ◌/◌};
ghost use Rattle.model.specs.Refusals.{refusal_told};
ghost use Rattle.model.specs.Messages.{message_width};
ghost use Rattle.model.specs.Runs.{log_refusal};
ghost use Rattle.tracker_queue.specs.Sending.{nothing_waits};
ghost use Rattle.tracker_steps.specs.Steps.{OpenBatchSays, batch_outcome, places_refusal, PlacesAsk};
ghost use Rattle.tracker_steps.specs.Turns.{place_of, turn_outcome, TurnAsks, TurnSays};

use model::{
    Arrival, CoordinatorRecord, MESSAGE_WIDTH, MOST_SITES, Refusal, Settings, SiteRecord, Sites,
    Word,
};
use tracker_queue::Queue;

// What the batch call answers: the refusal that stopped it, if one did, the arrivals accepted,
// touches among them, the messages written to the log, and both records as they are then.
#[derive(Clone, Copy)]
pub struct BatchAnswer {
    pub refusal: Option<Refusal>,
    pub accepted: u64,
    pub written: u64,
    pub sites: Sites,
    pub coordinator: CoordinatorRecord,
}

// The turn of an arrival that is accepted: `taken` is 1, by which it counts; the record of the site
// that took it, and the messages that are to go out. A touch has the record as it was, and no
// messages.
// As it is: `TouchTurn` and `TakenTurn` hold the count, and two edits of the code plant it wrong.
#[derive(Clone, Copy)]
pub struct Turn {
    pub taken: u64,
    pub site: SiteRecord,
    pub out: Queue,
}

// The answer before the first arrival: why the call is refused when it starts, if it is. The memory
// is only read.
pub fn open_batch(
    settings: Settings,
    sites: Sites,
    coordinator: CoordinatorRecord,
    site_memory: &mut [Word],
    coordinator_memory: &mut [u64],
) -> BatchAnswer
    ensures { OpenBatchSays settings sites coordinator
        site_memory.old coordinator_memory.old (batch_outcome result)
        site_memory.new coordinator_memory.new }
{
    let tested = tracker_memory::test_network(
        settings,
        sites,
        coordinator,
        site_memory,
        coordinator_memory,
    );
    BatchAnswer {
        refusal: tested.err(),
        accepted: 0,
        written: 0,
        sites,
        coordinator,
    }
}

// The place of an arrival's site among the records. An arrival that names no such place is refused
// whatever record is looked at: 0 stands for it.
pub fn place_of(arrival: Arrival) -> usize
    ensures { result ≡ place_of arrival }
{
    if arrival.site < MOST_SITES {
        arrival.site as usize
    } else {
        0
    }
}

// Whether the log, of which `written` messages are in use, has room for a draw: 14.
fn test_log(settings: Settings, numbers: usize, written: u64) -> Result<(), Refusal>
    requires { PlacesAsk settings written numbers }
    ensures { refusal_told result ≡ log_refusal settings (numbers / message_width - written) }
{
    let free = ((numbers / MESSAGE_WIDTH) as u64) - written;
    if free < settings::most_messages(settings) {
        return Err(Refusal::LogTooShort);
    }
    Ok(())
}

// Whether an arrival of a batch is accepted: 5, 6, 7, 8, 14; a touch is not refused by 8 or 14.
// `own` is its site's record.
fn test_one(
    settings: Settings,
    own: SiteRecord,
    arrival: Arrival,
    numbers: usize,
    written: u64,
) -> Result<(), Refusal>
    requires { PlacesAsk settings written numbers }
    ensures { refusal_told result ≡ places_refusal settings own arrival numbers written }
{
    site_refusals::test_arrival(settings, own, arrival)?;
    if site_refusals::is_draw(arrival) {
        test_log(settings, numbers, written)?;
    }
    Ok(())
}

// The turn of a touch, which leaves its site as it was, and counts for so many.
fn touch_turn(taken: u64, own: SiteRecord) -> Turn
    ensures { result ≡ record { taken = taken; site = own; out = nothing_waits } }
{
    Turn {
        taken,
        site: own,
        out: tracker_queue::empty_queue(),
    }
}

// An arrival is refused, or its site takes it, or it is a touch and accepted. It is handed the one
// record that changes and hands it back: the records of 32 sites are not copied for an arrival.
// `own` is that record, `written` the messages written so far, and `numbers` the log's length.
// Internal: `tracker_arrivals::take_arrival` and `tracker::run_batch` alone call it, after
// `open_batch` has accepted.
#[tactic(auto, using(crate::proofs::TurnLaws::turn_touched))]
pub fn take_turn(
    settings: Settings,
    own: SiteRecord,
    written: u64,
    arrival: Arrival,
    numbers: usize,
    site_memory: &mut [Word],
) -> Result<Turn, Refusal>
    requires { TurnAsks settings own written arrival numbers site_memory.old }
    ensures { TurnSays settings own written arrival numbers
        site_memory.old (turn_outcome own result) site_memory.new }
{
    test_one(settings, own, arrival, numbers, written)?;
    if !site_refusals::is_draw(arrival) {
        return Ok(touch_turn(1, own));
    }
    let observed = tracker_delivery::observe(settings, own, arrival, site_memory);
    let out = Queue {
        count: observed.count,
        first: observed.first,
        second: observed.second,
    };
    Ok(Turn {
        taken: 1,
        site: observed.site,
        out,
    })
}
