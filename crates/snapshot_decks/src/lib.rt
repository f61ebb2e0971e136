// The decks of a file (request N3): whether each is consistent. A deck's memory is read into an
// array of the call's own and tested by the site's own test, since nothing is stored before the
// last test. The functions are internal: the tests before decide that the file has the length that
// its settings give.

#![tactic(auto)]

ghost use Rattle.std.specs.Prelude.{◌≡◌, drop};
ghost use Rattle.model.specs.SiteMemory.{site_consistent};
ghost use Rattle.model.specs.NetworkMemory.{sites_consistent};
ghost use Rattle.snapshot_file.specs.Reading.{held_in};
ghost use Rattle.snapshot_header.specs.Header.{WholeFile};
ghost use Rattle.snapshot_decks.specs.Decks.{deck_record, deck_memory, DeckLies, DeckAsks, DecksAsk};

use little_endian::read_fixed;
use model::{MOST_SITE_WORDS, Settings, SiteRecord, Word};
use number_runs::read_words;
use snapshot_file::{DECK_BYTES, deck_size, decks_place};

// The record of the deck from a place on, right after its memory.
pub fn deck_record(settings: Settings, file: &[u8], place: usize) -> SiteRecord
    requires { DeckLies settings file.now place }
    ensures { result ≡ deck_record settings (drop place file.now) }
{
    let at = place + DECK_BYTES * site_memory::site_words(settings);
    SiteRecord {
        arrivals: read_fixed::<DECK_BYTES>(file, at),
        pending: read_fixed::<DECK_BYTES>(file, at + DECK_BYTES),
        threshold: read_fixed::<DECK_BYTES>(file, at + 2 * DECK_BYTES),
        used: read_fixed::<DECK_BYTES>(file, at + 3 * DECK_BYTES),
        dropped: read_fixed::<DECK_BYTES>(file, at + 4 * DECK_BYTES),
    }
}

// Whether the deck from a place on is consistent. Its memory is read into numbers that are lent for
// it.
fn test_deck(settings: Settings, file: &[u8], place: usize, scratch: &mut [Word]) -> bool
    requires { DeckAsks settings file.now place scratch.old }
    ensures { result ≡ site_consistent settings (deck_record settings (drop place file.now))
        (deck_memory settings (drop place file.now)) }
{
    let words = site_memory::site_words(settings);
    let site = deck_record(settings, file, place);
    read_words(file, place, &mut scratch[..words]);
    site_memory::site_consistent(settings, site, &scratch[..words])
}

// Whether each deck of the file is consistent.
fn test_decks(settings: Settings, file: &[u8], scratch: &mut [Word]) -> bool
    requires { DecksAsk settings file.now scratch.old }
    ensures { result ≡ sites_consistent settings.sites settings
        (held_in settings file.now).sites.records
        (held_in settings file.now).site_memory }
{
    let count = settings.sites as usize;
    let size = deck_size(settings);
    let first = decks_place(settings);
    for j in 0..count {
        if !test_deck(settings, file, first + j * size, scratch) {
            return false;
        }
    }
    true
}

// The same, with numbers of its own for the decks' memory, one after another.
pub fn decks_consistent(settings: Settings, file: &[u8]) -> bool
    requires { WholeFile settings file.now }
    ensures { result ≡ sites_consistent settings.sites settings
        (held_in settings file.now).sites.records
        (held_in settings file.now).site_memory }
{
    let mut scratch: [Word; MOST_SITE_WORDS] = [0; MOST_SITE_WORDS];
    test_decks(settings, file, &mut scratch)
}
