// One arrival with full delivery, by the public calls alone: the pattern for a caller who takes
// arrivals one by one. The whole network is tested first, as the batch call tests it. Then the
// arrival goes to its site by `site::observe`; each message that goes out is handed over by
// `site::receive` or `coordinator::receive`, in the order of going out; and kind 7 is asked for by
// `coordinator::next_announcement` until the coordinator is idle. No internal step is taken: crate
// `history` knows each of these calls by its contract alone, and here its histories are made by
// code.

#![tactic(auto)]

ghost use Rattle.std.specs.Prelude.{◌≡◌};
ghost use Rattle.model.specs.Held.{held_by};
ghost use Rattle.single_outcome.specs.Delivery.{delivery_outcome, DeliverySays};

use model::{Arrival, CoordinatorRecord, Refusal, Settings, Sites, Word};
use single_begin::begin;
use single_outcome::DeliveryAnswer;
use single_steps::deliver;
use tracker_memory::test_network;

// One arrival with full delivery. Refused, it changes nothing: 1, 2, 3; then 4 and 11 of the whole
// network, coordinator and all; then 5, 6, 7, 8. Nor does a touch, which is not tested for 8.
// A draw that is accepted at records and memory that a history left at rest leaves them at rest,
// one draw later.
pub fn deliver_arrival(
    settings: Settings,
    sites: Sites,
    coordinator: CoordinatorRecord,
    arrival: Arrival,
    site_memory: &mut [Word],
    coordinator_memory: &mut [u64],
) -> Result<DeliveryAnswer, Refusal>
    ensures { let outcome = delivery_outcome sites coordinator result in
        DeliverySays settings arrival (held_by sites coordinator
        site_memory.old coordinator_memory.old)
        (held_by outcome.sites outcome.coordinator site_memory.new
        coordinator_memory.new) outcome }
{
    // 1, 2, 3; then 4 and 11: what is short or inconsistent is met before anything changes.
    test_network(
        settings,
        sites,
        coordinator,
        site_memory,
        coordinator_memory,
    )?;
    // 5, since the site's record and memory are looked up by its number; then 6, 7, 8.
    if settings.sites <= arrival.site {
        return Err(Refusal::UnknownSite);
    }
    let begun = begin(settings, sites, coordinator, arrival, site_memory)?;
    // A touch: its site has left all as it was.
    if !site_refusals::is_draw(arrival) {
        let left = leave(sites, coordinator);
        return Ok(left);
    }
    // Every message handed over, answers included, and kind 7 asked for until all is at rest.
    let ended = deliver(settings, begun, site_memory, coordinator_memory);
    Ok(DeliveryAnswer {
        carried: ended.carried,
        stopped: ended.refusal,
        sites: ended.sites,
        coordinator: ended.coordinator,
    })
}

// A touch: nothing went out, and the records are as they were.
fn leave(sites: Sites, coordinator: CoordinatorRecord) -> DeliveryAnswer
    ensures { result
        ≡ record { carried = 0; stopped = None; sites = sites; coordinator = coordinator } }
{
    DeliveryAnswer {
        carried: 0,
        stopped: None,
        sites,
        coordinator,
    }
}
