// The tests of a file before its bench (request N3): whether it has settings and trailer and a
// width that is known, whether its sum is right, its settings, and whether it is laid out as they
// say. Functions with a `requires` are internal: the test before decides what they require.

#![tactic(auto)]

ghost use Rattle.std.specs.Prelude.{◌≡◌, not, eqb, take};
ghost use Rattle.record_numbers.specs.Numbers.{coordinator_width, phase_well_in};
ghost use Rattle.checksum.specs.Sums.{byte_sum};
ghost use Rattle.snapshot_file.specs.Reading.{settings_in, desk_record, unsummed, sum_in, shape_wrong, layout_wrong};
ghost use Rattle.snapshot_header.specs.Header.{narrowed_settings, LongFile, WholeFile, SettledFile};

use checksum::byte_sum;
use coordinator_numbers::COORDINATOR_NUMBERS;
use coordinator_phase::phase_well;
use little_endian::read_number;
use model::{Settings, VALUE_COUNT};
use number_runs::read_numbers;
use record_numbers::{SETTINGS_NUMBERS, narrow};
use snapshot_file::{
    DECK_BYTES, DESK_BYTES, DESK_PLACE, LEAST_LENGTH, POINTER_BYTES, SUM_BYTES, TRAILER_LENGTH,
    WIDTH_BYTES, decks_place, file_length,
};

// Whether the file is too short for settings and trailer, or its width is unknown.
pub fn shape_wrong(file: &[u8]) -> bool
    ensures { result ≡ shape_wrong file.now }
{
    file.len() < LEAST_LENGTH
        || read_number(file, file.len() - (WIDTH_BYTES + SUM_BYTES), WIDTH_BYTES)
            != DECK_BYTES as u64
}

// Whether the sum differs.
pub fn sum_wrong(file: &[u8]) -> bool
    requires { LongFile file.now }
    ensures { result ≡ not (eqb (byte_sum (unsummed file.now)) (sum_in file.now)) }
{
    let last = file.len() - SUM_BYTES;
    byte_sum(&file[..last]) != read_number(file, last, SUM_BYTES)
}

// The settings, each number narrowed.
pub fn settings_in(file: &[u8]) -> Settings
    requires { LongFile file.now }
    ensures { result ≡ narrowed_settings (settings_in file.now) }
{
    let mut row = [0u64; SETTINGS_NUMBERS];
    read_numbers(file, 0, &mut row);
    Settings {
        sites: narrow(row[0]),
        epsilon: narrow(row[1]),
        phi: narrow(row[2]),
        rank: narrow(row[3]),
        capacity: narrow(row[4]),
        universe: narrow(row[5]),
    }
}

// The ten numbers of the coordinator's record, behind its memory.
pub fn desk_row(settings: Settings, file: &[u8]) -> [u64; COORDINATOR_NUMBERS]
    requires { WholeFile settings file.now }
    ensures { result ≡ take coordinator_width (desk_record settings file.now) }
{
    let words = (settings.universe as usize) + VALUE_COUNT;
    let mut row = [0u64; COORDINATOR_NUMBERS];
    read_numbers(file, DESK_PLACE + DESK_BYTES * words, &mut row);
    row
}

// Whether the numbers of the file's phase are those of none.
fn phase_wrong(settings: Settings, file: &[u8]) -> bool
    requires { WholeFile settings file.now }
    ensures { result ≡ not (phase_well_in (desk_record settings file.now)) }
{
    let row = desk_row(settings, file);
    !phase_well(row[5], row[6], row[7], row[8], row[9])
}

// Whether an offset or the length is another than these settings give, or the phase is none.
pub fn layout_wrong(settings: Settings, file: &[u8]) -> bool
    requires { SettledFile settings file.now }
    ensures { result ≡ layout_wrong settings file.now }
{
    let length = file.len();
    read_number(file, length - TRAILER_LENGTH, POINTER_BYTES) != DESK_PLACE as u64
        || read_number(
            file,
            length - (TRAILER_LENGTH - POINTER_BYTES),
            POINTER_BYTES,
        ) != decks_place(settings) as u64
        || length != file_length(settings)
        || phase_wrong(settings, file)
}
