// Settings, draws and messages as rows of numbers of one width, in document 01's order: what a
// file, a device or a caller outside holds of them. The records of sites and of the coordinator are
// rows too: crates `site_numbers` and `coordinator_numbers`, over the definitions of this crate.

#![tactic(auto)]

ghost use Rattle.std.specs.Prelude.{◌≡◌};
ghost use Rattle.record_numbers.specs.Numbers.{narrowed, settings_from, arrival_from, message_read, message_numbers};

use messages::message_of;
use model::{Arrival, MESSAGE_WIDTH, Message, Settings};

// How many numbers the settings take, and a draw.
pub const SETTINGS_NUMBERS: usize = 6;

pub const ARRIVAL_NUMBERS: usize = 3;

// The five numbers of a phase; crate `coordinator_phase` makes them.
#[derive(Clone, Copy)]
pub struct PhaseNumbers {
    pub which: u64,
    pub site: u32,
    pub low: u32,
    pub high: u32,
    pub sum: u64,
}

// The settings of a row.
pub fn settings_from(row: &[u32; SETTINGS_NUMBERS]) -> Settings
    ensures { result ≡ settings_from row.now }
{
    Settings {
        sites: row[0],
        epsilon: row[1],
        phi: row[2],
        rank: row[3],
        capacity: row[4],
        universe: row[5],
    }
}

// The arrival of a row.
pub fn arrival_from(row: &[u32; ARRIVAL_NUMBERS]) -> Arrival
    ensures { result ≡ arrival_from row.now }
{
    Arrival {
        site: row[0],
        item: row[1],
        value: row[2],
    }
}

// A number in four bytes: the greatest of these for one that needs more.
pub fn narrow(number: u64) -> u32
    ensures { result ≡ narrowed number }
{
    number.min(u32::MAX as u64) as u32
}

// The message of a row. A kind or a site of more than four bytes is no kind and no site.
pub fn message_from(row: &[u64; MESSAGE_WIDTH]) -> Message
    ensures { result ≡ message_read row.now }
{
    message_of(narrow(row[0]), narrow(row[1]), row[2], row[3])
}

// The row of a message.
pub fn message_row(message: Message) -> [u64; MESSAGE_WIDTH]
    ensures { result ≡ message_numbers message }
{
    [
        message.kind as u64,
        message.site as u64,
        message.a,
        message.b,
    ]
}
