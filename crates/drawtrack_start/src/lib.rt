// What is judged before the first draw of a session of the program `drawtrack`: the program's
// limits and the memory that they ask for; why settings, worklist or memory do not serve; and which
// line of the input is refused then. Crate `drawtrack_session` reads the settings line and asks.

#![tactic(auto)]

ghost use Rattle.std.specs.Prelude.{◌≡◌};
ghost use Rattle.model.specs.Refusals.{no_refusal, refusal_told};
ghost use Rattle.model.specs.Transcript.{beyond_program};
ghost use Rattle.drawtrack_start.specs.Start.{shorter_than_limits, start_refusal_of, start_line};

use model::{ARRIVAL_MESSAGES, CLOSING_MESSAGES, MESSAGE_WIDTH, Refusal, Settings};
use output_reason::{SETTINGS_LINE, WHOLE_WORKLIST};
use settings::test_settings;

// The program's limits: "Its memory serves k up to 4, c up to 100, u up to 1000 and a worklist up
// to 8192 bytes".
pub const SESSION_SITES: u32 = 4;

pub const SESSION_CAPACITY: u32 = 100;

pub const SESSION_UNIVERSE: u32 = 1000;

pub const SESSION_BYTES: usize = 8192;

// The memory that these limits ask for: 4 × (4 × 100 + 1024) and 1000 + 1024 numbers.
pub const SESSION_SITE_NUMBERS: usize = 5696;

pub const SESSION_COORDINATOR_NUMBERS: usize = 2024;

// Room for what a call writes: 4 × (23 × 4 + 2) numbers of a log, 1000 places of a list, and the
// bytes of the lines of either.
const SESSION_CLOSING: usize = (CLOSING_MESSAGES as usize) * (SESSION_SITES as usize);

pub const SESSION_LOG_NUMBERS: usize = MESSAGE_WIDTH
    * (SESSION_CLOSING + (ARRIVAL_MESSAGES as usize));

pub const SESSION_LIST_PLACES: usize = 1000;

pub const SESSION_OUT_BYTES: usize = 8192;

// The most bytes of an input that matter: 48 of a settings line, 8192 of a worklist and one more.
pub const SESSION_INPUT_BYTES: usize = 8241;

// Whether settings or worklist are beyond the program's limits.
fn beyond_limits(settings: Settings, bytes: usize) -> bool
    ensures { result ≡ beyond_program settings bytes }
{
    SESSION_SITES < settings.sites
        || SESSION_CAPACITY < settings.capacity
        || SESSION_UNIVERSE < settings.universe
        || SESSION_BYTES < bytes
}

// Whether lent memory is too short for the program's limits.
fn shorter_than_limits(site_numbers: usize, coordinator_numbers: usize) -> bool
    ensures { result ≡ shorter_than_limits site_numbers coordinator_numbers }
{
    site_numbers < SESSION_SITE_NUMBERS || coordinator_numbers < SESSION_COORDINATOR_NUMBERS
}

// Why a session with settings that were read does not start: 1, 2, 3; 4 beyond the program's
// limits, or with less memory than they ask for.
pub fn test_start(
    settings: Settings,
    bytes: usize,
    site_numbers: usize,
    coordinator_numbers: usize,
) -> Result<(), Refusal>
    ensures { refusal_told result ≡ start_refusal_of no_refusal settings bytes site_numbers
        coordinator_numbers }
{
    test_settings(settings)?;
    if beyond_limits(settings, bytes) || shorter_than_limits(site_numbers, coordinator_numbers) {
        return Err(Refusal::MemoryTooShort);
    }
    Ok(())
}

// Which line is refused where `begin` refuses an input: that of the settings; but where these are
// served, 4 is of the worklist, which is too long.
pub fn start_line(settings: Settings, refusal: u32) -> usize
    ensures { result ≡ start_line settings refusal }
{
    if refusal == Refusal::MemoryTooShort.number() && !beyond_limits(settings, 0) {
        return WHOLE_WORKLIST;
    }
    SETTINGS_LINE
}
