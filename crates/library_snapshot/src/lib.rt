// A bench saved to lent bytes and read back, as calls of the library (tracker.h): records are rows
// of numbers behind pointers, which C sees as structs.

#![tactic(auto)]

ghost use Rattle.std.specs.Prelude.{◌≡◌};
ghost use Rattle.library_rows.specs.Rows.{lent};
ghost use Rattle.record_numbers.specs.Numbers.{settings_numbers};
ghost use Rattle.snapshot_file.specs.Calls.{save_answer, load_answer};
ghost use Rattle.library_snapshot.specs.Snapshot.{FileLengthExported, HandLengthSays, SaveExported, HandBenchSays, LoadExported};

use coordinator_numbers::{COORDINATOR_NUMBERS, coordinator_from, coordinator_row};
use model::{NO_REFUSAL, Refusal, Settings, Word};
use record_numbers::{SETTINGS_NUMBERS, settings_from};
use settings::test_settings;
use site_numbers::{SITES_NUMBERS, sites_from, sites_row};
use snapshot_file::{Loaded, file_length};
use snapshot_loading::load_bench;
use snapshot_saving::save_bench;

// How many bytes a file has, by the settings alone.
pub fn tracker_file_length(settings: &[u32; SETTINGS_NUMBERS], length: &mut usize) -> u32
    ensures { FileLengthExported (lent settings.now settings.now) (lent length.old length.new)
        result }
{
    let rules = settings_from(settings);
    if let Err(refusal) = test_settings(rules) {
        return refusal.number();
    }
    *length = file_length(rules);
    NO_REFUSAL
}

// How many bytes the file has, where it was written; and the number of the refusal, or 0.
fn hand_length(saved: Result<usize, Refusal>, length: &mut usize) -> u32
    ensures length { HandLengthSays (save_answer saved) (lent length.old length.new) }
    ensures refusal { result ≡ (save_answer saved).refusal }
{
    match saved {
        Ok(written) => {
            *length = written;
            NO_REFUSAL
        }
        Err(refusal) => refusal.number(),
    }
}

// `snapshot_saving::save_bench`.
pub fn tracker_save(
    settings: &[u32; SETTINGS_NUMBERS],
    decks: &[u64; SITES_NUMBERS],
    desk: &[u64; COORDINATOR_NUMBERS],
    deck_memory: &[Word],
    desk_memory: &[u64],
    bytes: &mut [u8],
    length: &mut usize,
) -> u32
    ensures { SaveExported (lent settings.now settings.now) (lent decks.now decks.now)
        (lent desk.now desk.now)
        (lent deck_memory.now deck_memory.now) (lent desk_memory.now desk_memory.now)
        (lent bytes.old bytes.new) (lent length.old length.new) result }
{
    let saved = save_bench(
        settings_from(settings),
        sites_from(decks),
        coordinator_from(desk),
        deck_memory,
        desk_memory,
        bytes,
    );
    hand_length(saved, length)
}

// Settings as a row of numbers.
fn settings_row(settings: Settings) -> [u32; SETTINGS_NUMBERS]
    ensures { result ≡ settings_numbers settings }
{
    [
        settings.sites,
        settings.epsilon,
        settings.phi,
        settings.rank,
        settings.capacity,
        settings.universe,
    ]
}

// What a file holds, where it is accepted; and the number of the refusal, or 0.
fn hand_bench(
    loaded: Result<Loaded, Refusal>,
    settings: &mut [u32; SETTINGS_NUMBERS],
    decks: &mut [u64; SITES_NUMBERS],
    desk: &mut [u64; COORDINATOR_NUMBERS],
) -> u32
    ensures rows { HandBenchSays (load_answer loaded) (lent settings.old settings.new)
        (lent decks.old decks.new) (lent desk.old desk.new) }
    ensures refusal { result ≡ (load_answer loaded).refusal }
{
    match loaded {
        Ok(bench) => {
            *settings = settings_row(bench.settings);
            *decks = sites_row(bench.sites);
            *desk = coordinator_row(bench.coordinator);
            NO_REFUSAL
        }
        Err(reason) => reason.number(),
    }
}

// `snapshot_loading::load_bench`.
pub fn tracker_load(
    file: &[u8],
    settings: &mut [u32; SETTINGS_NUMBERS],
    decks: &mut [u64; SITES_NUMBERS],
    desk: &mut [u64; COORDINATOR_NUMBERS],
    deck_memory: &mut [Word],
    desk_memory: &mut [u64],
) -> u32
    ensures { LoadExported (lent file.now file.now) (lent settings.old settings.new)
        (lent decks.old decks.new) (lent desk.old desk.new)
        (lent deck_memory.old deck_memory.new) (lent desk_memory.old desk_memory.new) result }
{
    hand_bench(
        load_bench(file, deck_memory, desk_memory),
        settings,
        decks,
        desk,
    )
}
