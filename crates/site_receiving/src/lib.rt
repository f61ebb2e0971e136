// The step of a site on a message: what it does to the site's record. It tests nothing. A site's
// memory is handed over as a slice that may be longer than it needs, and only read.

#![tactic(auto)]

ghost use Rattle.site_receiving.specs.Receiving.{ReceiveAsks, ReceiveStepSays};

use messages::{no_message, poll_answer_of, probe_answer_of};
use model::{Message, POLL, PROBE, Settings, SiteRecord, Word};

// What a message leads to: the site's record then, and the reply, if `count` is 1.
// As it is: the clause `ReceiveStepSays` speaks of a count and of a message.
#[derive(Clone, Copy)]
pub struct Replied {
    pub site: SiteRecord,
    pub count: u32,
    pub reply: Message,
}

// A message at a site: a poll is answered by what is pending, a probe by the arrivals at or below
// its value, and an announcement sets the threshold. The memory is only read. Internal: what it
// requires is decided by `site_memory::test_site_memory` and `site_refusals::test_message`,
// or by the tests of the batch call.
#[tactic(auto, using(model::proofs::Soundness::ConsistentSites::length_counters_in))]
pub fn receive_step(
    settings: Settings,
    site: SiteRecord,
    message: Message,
    memory: &[Word],
) -> Replied
    requires { ReceiveAsks settings site message memory.now }
    ensures { ReceiveStepSays settings site message memory.now result }
{
    if message.kind == POLL {
        return Replied {
            site: SiteRecord { pending: 0, ..site },
            count: 1,
            reply: poll_answer_of(message.site, site.pending),
        };
    }
    if message.kind == PROBE {
        let from = 4 * (settings.capacity as usize);
        let count = site_memory::count_up_to(memory, from, message.a as usize);
        return Replied {
            site,
            count: 1,
            reply: probe_answer_of(message.site, message.a, count),
        };
    }
    Replied {
        site: SiteRecord {
            threshold: message.a,
            ..site
        },
        count: 0,
        reply: no_message(),
    }
}
