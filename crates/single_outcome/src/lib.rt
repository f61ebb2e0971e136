// What one arrival with full delivery by the public calls answers; specs/ has what it comes to, for
// every network that passes the start test, and proofs/ why. The call is in crate
// `single_delivery`.

#![tactic(auto)]

use model::{CoordinatorRecord, Refusal, Sites};

// What an arrival that is not refused comes to: how many messages went out, each once; why a call
// was refused on the way and stopped the delivery, if one was, or none where it came to rest; and
// both records as they are then. From records and memory that arose by the calls nothing stops it.
#[derive(Clone, Copy)]
pub struct DeliveryAnswer {
    pub carried: u64,
    pub stopped: Option<Refusal>,
    pub sites: Sites,
    pub coordinator: CoordinatorRecord,
}
