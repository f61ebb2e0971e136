// The parts of a file written to lent bytes (request N3): settings, desk part, decks and trailer,
// by the layout of crate `snapshot_file`. The functions are internal: the tests before them decide
// what they require (crate `snapshot_saving`).

#![tactic(auto)]

ghost use Rattle.std.specs.Prelude.{◌≡◌, ◌≤◌, length};
ghost use Rattle.laws.specs.Writing.{written_at};
ghost use Rattle.record_numbers.specs.Numbers.{settings_numbers};
ghost use Rattle.little_endian.specs.Numbers.{numbers_bytes};
ghost use Rattle.little_endian.specs.Sections.{sections_bytes};
ghost use Rattle.snapshot_file.specs.Layout.{desk_bytes, deck_bytes, desk_place, decks_place_of};
ghost use Rattle.snapshot_file.specs.File.{deck_numbers, deck_sections};
ghost use Rattle.snapshot_writing.specs.Parts.{desk_row, trailer_place, trailer_over, DeskAsks, DeckAsks, DecksAsk, TrailerAsks};

use checksum::byte_sum;
use coordinator_numbers::{COORDINATOR_NUMBERS, coordinator_row};
use little_endian::write_number;
use model::{CoordinatorRecord, SITE_RECORDS, Settings, SiteRecord, Sites, VALUE_COUNT, Word};
use number_runs::{write_numbers, write_words};
use site_numbers::site_row;
use snapshot_file::{
    DECK_BYTES, DESK_BYTES, DESK_PLACE, POINTER_BYTES, SUM_BYTES, WIDTH_BYTES, deck_size,
    decks_place, file_length,
};

// The six settings, from the first byte on.
pub fn write_settings(settings: Settings, bytes: &mut [u8])
    requires { desk_place ≤ length bytes.old }
    ensures { bytes.new
        ≡ written_at 0 (numbers_bytes desk_bytes (settings_numbers settings)) bytes.old }
{
    let row = [
        settings.sites as u64,
        settings.epsilon as u64,
        settings.phi as u64,
        settings.rank as u64,
        settings.capacity as u64,
        settings.universe as u64,
    ];
    write_numbers::<DESK_BYTES>(&row, bytes, 0);
}

// The desk part: the coordinator's memory, its record, and last the counts of messages of k decks.
pub fn write_desk(
    settings: Settings,
    coordinator: CoordinatorRecord,
    counts: [u64; SITE_RECORDS],
    memory: &[u64],
    bytes: &mut [u8],
)
    requires { DeskAsks settings memory.now bytes.old }
    ensures { bytes.new
        ≡ written_at desk_place
        (numbers_bytes desk_bytes (desk_row settings coordinator counts memory.now))
        bytes.old }
{
    let words = (settings.universe as usize) + VALUE_COUNT;
    write_numbers::<DESK_BYTES>(&memory[..words], bytes, DESK_PLACE);
    let place = DESK_PLACE + DESK_BYTES * words;
    write_numbers::<DESK_BYTES>(&coordinator_row(coordinator), bytes, place);
    write_numbers::<DESK_BYTES>(
        &counts[..settings.sites as usize],
        bytes,
        place + DESK_BYTES * COORDINATOR_NUMBERS,
    );
}

// One deck from a place on: its memory, and its record right after it.
fn write_deck(settings: Settings, site: SiteRecord, memory: &[Word], bytes: &mut [u8], place: usize)
    requires { DeckAsks settings memory.now bytes.old place }
    ensures { bytes.new
        ≡ written_at place (numbers_bytes deck_bytes (deck_numbers settings site memory.now))
        bytes.old }
{
    let words = site_memory::site_words(settings);
    write_words(&memory[..words], bytes, place);
    write_numbers::<DECK_BYTES>(&site_row(site), bytes, place + DECK_BYTES * words);
}

// The decks, one after another.
pub fn write_decks(settings: Settings, sites: Sites, memory: &[Word], bytes: &mut [u8])
    requires { DecksAsk settings memory.now bytes.old }
    ensures { bytes.new
        ≡ written_at (decks_place_of settings)
        (sections_bytes (deck_sections settings.sites settings sites.records memory.now))
        bytes.old }
{
    let count = settings.sites as usize;
    let words = site_memory::site_words(settings);
    let size = deck_size(settings);
    let first = decks_place(settings);
    for j in 0..count {
        let start = j * words;
        write_deck(
            settings,
            sites.records[j],
            &memory[start..],
            bytes,
            first + j * size,
        );
    }
}

// The trailer behind all that was written: where the desk part and the first deck begin, the width
// of a deck's numbers, and the sum of all bytes before it and of these ten.
pub fn write_trailer(settings: Settings, bytes: &mut [u8])
    requires { TrailerAsks settings bytes.old }
    ensures { bytes.new
        ≡ written_at (trailer_place settings) (trailer_over settings bytes.old)
        bytes.old }
{
    let last = file_length(settings) - SUM_BYTES;
    let first = last - WIDTH_BYTES - 2 * POINTER_BYTES;
    write_number(bytes, first, POINTER_BYTES, DESK_PLACE as u64);
    let decks = decks_place(settings) as u64;
    write_number(bytes, first + POINTER_BYTES, POINTER_BYTES, decks);
    write_number(
        bytes,
        first + 2 * POINTER_BYTES,
        WIDTH_BYTES,
        DECK_BYTES as u64,
    );
    let sum = byte_sum(&bytes[..last]);
    write_number(bytes, last, SUM_BYTES, sum);
}
