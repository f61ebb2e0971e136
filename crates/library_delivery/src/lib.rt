// A draw with full delivery, as a call of the library (tracker.h): records are rows of numbers
// behind pointers, which C sees as structs.
// As it is: the call answers with the number of its refusal, or 0, since the C interface needs it.

#![tactic(auto)]

ghost use Rattle.library_rows.specs.Rows.{lent};
ghost use Rattle.library_delivery.specs.Delivery.{DeliveryExported};

use coordinator_numbers::{COORDINATOR_NUMBERS, coordinator_from, coordinator_row};
use model::{NO_REFUSAL, Word};
use record_numbers::{ARRIVAL_NUMBERS, SETTINGS_NUMBERS, arrival_from, settings_from};
use site_numbers::{SITES_NUMBERS, sites_from, sites_row};

// How many messages went out, and the number of a call that stopped the delivery, or 0.
pub const DELIVERY_NUMBERS: usize = 2;

// `single_delivery::deliver_arrival`.
pub fn tracker_deliver(
    settings: &[u32; SETTINGS_NUMBERS],
    decks: &mut [u64; SITES_NUMBERS],
    desk: &mut [u64; COORDINATOR_NUMBERS],
    deck_memory: &mut [Word],
    desk_memory: &mut [u64],
    draw: &[u32; ARRIVAL_NUMBERS],
    delivery: &mut [u64; DELIVERY_NUMBERS],
) -> u32
    ensures { DeliveryExported (lent settings.now settings.now) (lent decks.old decks.new)
        (lent desk.old desk.new)
        (lent deck_memory.old deck_memory.new) (lent desk_memory.old desk_memory.new)
        (lent draw.now draw.now) (lent delivery.old delivery.new) result }
{
    match single_delivery::deliver_arrival(
        settings_from(settings),
        sites_from(decks),
        coordinator_from(desk),
        arrival_from(draw),
        deck_memory,
        desk_memory,
    ) {
        Err(refusal) => refusal.number(),
        Ok(done) => {
            *decks = sites_row(done.sites);
            *desk = coordinator_row(done.coordinator);
            *delivery = [done.carried, 0];
            if let Some(stopped) = done.stopped {
                delivery[1] = stopped.number() as u64;
            }
            NO_REFUSAL
        }
    }
}
