// Starting sites, all of them or one. Refused as document 01's table "Refused" names, a start
// leaves the memory as it was.

#![tactic(auto)]

ghost use Rattle.std.specs.Prelude.{◌≡◌};
ghost use Rattle.model.specs.Refusals.{refusal_told};
ghost use Rattle.model.specs.SiteMemory.{site_record};
ghost use Rattle.model.specs.NetworkMemory.{fresh_sites};
ghost use Rattle.model.specs.Site.{fresh_site};
ghost use Rattle.site_start.specs.Starts.{start_site_refusal, sites_start, StartSitesSays, site_start_of, StartSiteSays};

use model::{Refusal, SITE_RECORDS, Settings, SiteRecord, Sites, Word};

// The record of a site started fresh.
fn fresh_site() -> SiteRecord
    ensures { result ≡ site_record fresh_site }
{
    SiteRecord {
        arrivals: 0,
        pending: 0,
        threshold: 1,
        used: 0,
        dropped: 0,
    }
}

// The records of 32 sites started fresh, and no message counted for any.
fn fresh_sites() -> Sites
    ensures { result ≡ fresh_sites }
{
    let fresh = fresh_site();
    Sites {
        records: [fresh; SITE_RECORDS],
        messages: [0; SITE_RECORDS],
    }
}

// All sites started fresh, their memory one after another.
pub fn start_sites(settings: Settings, memory: &mut [Word]) -> Result<Sites, Refusal>
    ensures { StartSitesSays settings memory.old memory.new (sites_start result) }
{
    settings::test_settings(settings)?;
    let words = (settings.sites as usize) * site_memory::site_words(settings);
    if memory.len() < words {
        return Err(Refusal::MemoryTooShort);
    }
    memory[..words].fill(0);
    Ok(fresh_sites())
}

// Whether one site can be started, with memory of so many numbers: 1, 2, 3, 4; then 5 for its own
// number.
fn test_start_site(settings: Settings, which: u32, words: usize) -> Result<(), Refusal>
    ensures { refusal_told result ≡ start_site_refusal settings which words }
{
    settings::test_settings(settings)?;
    if words < site_memory::site_words(settings) {
        return Err(Refusal::MemoryTooShort);
    }
    if settings.sites <= which {
        return Err(Refusal::UnknownSite);
    }
    Ok(())
}

// Site `which` alone started fresh, for a caller that holds one. The memory is the site's own, and
// may be longer.
pub fn start_site(
    settings: Settings,
    which: u32,
    memory: &mut [Word],
) -> Result<SiteRecord, Refusal>
    ensures { StartSiteSays settings which memory.old memory.new (site_start_of result) }
{
    test_start_site(settings, which, memory.len())?;
    memory[..site_memory::site_words(settings)].fill(0);
    Ok(fresh_site())
}
