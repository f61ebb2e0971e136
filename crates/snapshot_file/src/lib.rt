// How a bench is laid out in a file (request N3): the places and lengths that settings give, from
// one layout (specs/Layout.antt), and what the calls that save and read one answer. The functions
// are internal: the settings are tested first.

#![tactic(auto)]

ghost use Rattle.std.specs.Prelude.{◌≡◌};
ghost use Rattle.model.specs.Refusals.{no_refusal};
ghost use Rattle.model.specs.Settings.{settings_refusal};
ghost use Rattle.snapshot_file.specs.Layout.{decks_place_of, file_length};
ghost use Rattle.snapshot_file.specs.Reading.{deck_size};

use model::{CoordinatorRecord, Settings, Sites, VALUE_COUNT};

// The bytes of a number in settings and desk part, and in the decks; those of a pointer, of the
// width, and of the sum.
pub const DESK_BYTES: usize = 8;

pub const DECK_BYTES: usize = 4;

pub const POINTER_BYTES: usize = 4;

pub const WIDTH_BYTES: usize = 2;

pub const SUM_BYTES: usize = 2;

// Where the desk part begins: after six settings.
pub const DESK_PLACE: usize = 6 * DESK_BYTES;

// The last bytes: two pointers, the width, the sum.
pub const TRAILER_LENGTH: usize = 2 * POINTER_BYTES + WIDTH_BYTES + SUM_BYTES;

// The least file: settings and trailer.
pub const LEAST_LENGTH: usize = DESK_PLACE + TRAILER_LENGTH;

// The numbers of the desk part beside its memory and the counts of messages: a record of ten.
const DESK_BESIDE: usize = 10;

// The numbers of a deck beside its memory: a record of five.
const DECK_BESIDE: usize = 5;

// The settings and both records that an accepted file has.
#[derive(Clone, Copy)]
pub struct Loaded {
    pub settings: Settings,
    pub sites: Sites,
    pub coordinator: CoordinatorRecord,
}

// Where the first deck begins: after the desk part, whose last numbers are the counts of messages,
// one for each deck.
pub fn decks_place(settings: Settings) -> usize
    requires { settings_refusal settings ≡ no_refusal }
    ensures { result ≡ decks_place_of settings }
{
    let numbers = (settings.universe as usize) + VALUE_COUNT + DESK_BESIDE;
    DESK_PLACE + DESK_BYTES * (numbers + (settings.sites as usize))
}

// The bytes of a deck: its memory, and its record.
pub fn deck_size(settings: Settings) -> usize
    requires { settings_refusal settings ≡ no_refusal }
    ensures { result ≡ deck_size settings }
{
    DECK_BYTES * (4 * (settings.capacity as usize) + VALUE_COUNT + DECK_BESIDE)
}

// The bytes of a file.
pub fn file_length(settings: Settings) -> usize
    requires { settings_refusal settings ≡ no_refusal }
    ensures { result ≡ file_length settings }
{
    let decks = (settings.sites as usize) * deck_size(settings);
    decks_place(settings) + decks + TRAILER_LENGTH
}
