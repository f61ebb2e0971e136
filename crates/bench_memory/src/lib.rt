// Whether the records and the lent memory of a whole network are consistent, in mid-delivery too:
// what the batch call's start test and the calls on a saved bench share (refusals 4 and 11). The
// functions are internal: their callers test the settings first, and the lengths by `memory_short`.

#![tactic(auto)]

ghost use Rattle.std.specs.Prelude.{◌≡◌};
ghost use Rattle.model.specs.Refusals.{no_refusal};
ghost use Rattle.model.specs.Settings.{settings_refusal};
ghost use Rattle.model.specs.NetworkMemory.{sites_consistent, bench_consistent};
ghost use Rattle.bench_memory.specs.Promises.{SitesFit, NetworkFits, ShortSays};

use model::{CoordinatorRecord, Settings, Sites, VALUE_COUNT, Word};

// Whether each site is consistent by itself.
fn sites_consistent(settings: Settings, sites: Sites, memory: &[Word]) -> bool
    requires { SitesFit settings memory.now }
    ensures { result
        ≡ sites_consistent settings.sites settings sites.records memory.now }
{
    let words = site_memory::site_words(settings);
    for j in 0..settings.sites as usize {
        if !site_memory::site_consistent(settings, sites.records[j], &memory[j * words..]) {
            return false;
        }
    }
    true
}

// Whether records and memory are consistent: the counts of messages, each site, the coordinator.
pub fn bench_consistent(
    settings: Settings,
    sites: Sites,
    coordinator: CoordinatorRecord,
    site_memory: &[Word],
    coordinator_memory: &[u64],
) -> bool
    requires { NetworkFits settings site_memory.now coordinator_memory.now }
    ensures { result
        ≡ bench_consistent settings sites coordinator
        site_memory.now coordinator_memory.now }
{
    message_counts::counts_within(settings, sites.messages)
        && sites_consistent(settings, sites, site_memory)
        && coordinator_memory::coordinator_consistent(settings, coordinator, coordinator_memory)
}

// Whether lent memory is shorter than the settings ask for.
pub fn memory_short(settings: Settings, site_numbers: usize, coordinator_numbers: usize) -> bool
    requires { settings_refusal settings ≡ no_refusal }
    ensures { ShortSays settings site_numbers coordinator_numbers result }
{
    let all = (settings.sites as usize) * site_memory::site_words(settings);
    site_numbers < all || coordinator_numbers < (settings.universe as usize) + VALUE_COUNT
}
