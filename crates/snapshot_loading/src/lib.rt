// A bench read from a file (request N3): every test is made on the bytes (crate `snapshot_refusal`)
// before the first number is stored. Functions with a `requires` are internal.

#![tactic(auto)]

ghost use Rattle.std.specs.Prelude.{◌≡◌};
ghost use Rattle.model.specs.SiteMemory.{overwrite};
ghost use Rattle.snapshot_file.specs.Reading.{held_in};
ghost use Rattle.snapshot_header.specs.Header.{WholeFile};
ghost use Rattle.snapshot_file.specs.Calls.{LoadSays, load_answer};
ghost use Rattle.snapshot_loading.specs.Loading.{StoreAsks, DeskAsks};

use coordinator_numbers::coordinator_from;
use model::{Refusal, SITE_RECORDS, Settings, SiteRecord, Sites, VALUE_COUNT, Word};
use number_runs::{read_numbers, read_words};
use snapshot_decks::deck_record;
use snapshot_file::{DESK_PLACE, Loaded, deck_size, decks_place};
use snapshot_header::{desk_row, settings_in};
use snapshot_refusal::{messages_in, test_file};

// The record of a site that is started fresh.
const FRESH: SiteRecord = SiteRecord {
    arrivals: 0,
    pending: 0,
    threshold: 1,
    used: 0,
    dropped: 0,
};

// The records of the decks and their counts of messages; records k to 31 are fresh, their counts 0.
fn sites_in(settings: Settings, file: &[u8]) -> Sites
    requires { WholeFile settings file.now }
    ensures { result ≡ (held_in settings file.now).sites }
{
    let count = settings.sites as usize;
    let size = deck_size(settings);
    let first = decks_place(settings);
    let mut records = [FRESH; SITE_RECORDS];
    let mut counts = [0u64; SITE_RECORDS];
    for j in 0..count {
        records[j] = deck_record(settings, file, first + j * size);
        counts[j] = messages_in(settings, file, j);
    }
    Sites {
        records,
        messages: counts,
    }
}

// The decks' memory, one after another.
fn store_decks(settings: Settings, file: &[u8], memory: &mut [Word])
    requires { StoreAsks settings file.now memory.old }
    ensures { memory.new
        ≡ overwrite (held_in settings file.now).site_memory memory.old }
{
    let count = settings.sites as usize;
    let words = site_memory::site_words(settings);
    let size = deck_size(settings);
    let first = decks_place(settings);
    for j in 0..count {
        let start = j * words;
        let end = start + words;
        read_words(file, first + j * size, &mut memory[start..end]);
    }
}

// The coordinator's memory.
fn store_desk(settings: Settings, file: &[u8], memory: &mut [u64])
    requires { DeskAsks settings file.now memory.old }
    ensures { memory.new
        ≡ overwrite (held_in settings file.now).coordinator_memory memory.old }
{
    let words = (settings.universe as usize) + VALUE_COUNT;
    read_numbers(file, DESK_PLACE, &mut memory[..words]);
}

// Reads a bench from a file into lent memory, and hands back the file's settings and both records.
// What lies behind is left as it was. Refused, it changes nothing: 15, 16; 1, 2, 3; 15; 4; 11.
pub fn load_bench(
    file: &[u8],
    site_memory: &mut [Word],
    coordinator_memory: &mut [u64],
) -> Result<Loaded, Refusal>
    ensures { LoadSays file.now
        site_memory.old coordinator_memory.old
        site_memory.new coordinator_memory.new (load_answer result) }
{
    let tested = test_file(file, site_memory.len(), coordinator_memory.len());
    tested?;
    let settings = settings_in(file);
    store_decks(settings, file, site_memory);
    store_desk(settings, file, coordinator_memory);
    Ok(Loaded {
        settings,
        sites: sites_in(settings, file),
        coordinator: coordinator_from(&desk_row(settings, file)),
    })
}
