// How much a caller of the library lends: the call behind `tracker_test_lengths` of tracker.h.
// As it is: a call answers with the number of its refusal, or 0, since the C interface needs it.

#![tactic(auto)]

ghost use Rattle.std.specs.Prelude.{◌≡◌};
ghost use Rattle.model.specs.Refusals.{no_refusal};
ghost use Rattle.model.specs.Settings.{settings_refusal};
ghost use Rattle.model.specs.Reading.{most_listed};
ghost use Rattle.library_lengths.specs.Lengths.{lengths_of, LengthsExported};

use model::{LIST_FACTOR, MESSAGE_WIDTH, NO_REFUSAL, Settings, THRESHOLD_FACTOR, VALUE_COUNT};
use record_numbers::{SETTINGS_NUMBERS, settings_from};

// How many lengths there are.
pub const LENGTHS: usize = 5;

// The places that a list needs after any run. Internal: the settings are tested.
fn most_listed(settings: Settings) -> u64
    requires { settings_refusal settings ≡ no_refusal }
    ensures { result ≡ most_listed settings }
{
    let share = 2 * (settings.phi as u64) - (settings.epsilon as u64);
    let lag = THRESHOLD_FACTOR - (settings.epsilon as u64);
    let most = LIST_FACTOR * THRESHOLD_FACTOR / (share * lag);
    most.min(settings.universe as u64)
}

// The lengths of all that is lent, in the order of tracker.h. Internal: the settings are tested.
fn lengths_of(settings: Settings) -> [u64; LENGTHS]
    requires { settings_refusal settings ≡ no_refusal }
    ensures { result ≡ lengths_of settings }
{
    let site = site_memory::site_words(settings) as u64;
    let coordinator = (settings.universe as u64) + (VALUE_COUNT as u64);
    let messages = settings::most_messages(settings);
    [
        site,
        (settings.sites as u64) * site,
        coordinator,
        most_listed(settings),
        (MESSAGE_WIDTH as u64) * messages,
    ]
}

// The lengths of all that is lent go to `lengths`, or the refusal of the settings.
pub fn tracker_test_lengths(settings: &[u32; SETTINGS_NUMBERS], lengths: &mut [u64; LENGTHS]) -> u32
    ensures { LengthsExported settings.now lengths.old lengths.new result }
{
    let rules = settings_from(settings);
    match settings::test_settings(rules) {
        Err(refusal) => refusal.number(),
        Ok(()) => {
            *lengths = lengths_of(rules);
            NO_REFUSAL
        }
    }
}
