// The settings test, the most messages of one arrival, and the allowance: what a planner asks
// before any memory is lent.

#![tactic(auto)]

ghost use Rattle.std.specs.Prelude.{◌≡◌, not};
ghost use Rattle.model.specs.Choice.{between};
ghost use Rattle.model.specs.Limits.{most_messages};
ghost use Rattle.model.specs.Refusals.{no_refusal, refusal_told};
ghost use Rattle.model.specs.Settings.{in_range, settings_refusal, digits, allowance};
ghost use Rattle.settings.specs.Promises.{AllowanceSays};

use model::{
    ALLOWANCE_FACTOR, ARRIVAL_MESSAGES, CLOSING_MESSAGES, LEAST_EPSILON, LEAST_PRODUCT,
    LEAST_SETTING, MOST_CAPACITY, MOST_EPSILON, MOST_PHI, MOST_RANK, MOST_SITES, MOST_UNIVERSE,
    Refusal, Settings,
};

// Whether x is one of the numbers from low to high.
fn within(low: u32, x: u32, high: u32) -> bool
    ensures { result ≡ between low x high }
{
    low <= x && x <= high
}

// Whether every setting is in its range.
fn all_within(settings: Settings) -> bool
    ensures { result ≡ in_range settings }
{
    within(LEAST_SETTING, settings.sites, MOST_SITES)
        && within(LEAST_EPSILON, settings.epsilon, MOST_EPSILON)
        && within(LEAST_SETTING, settings.phi, MOST_PHI)
        && within(LEAST_SETTING, settings.rank, MOST_RANK)
        && within(LEAST_SETTING, settings.capacity, MOST_CAPACITY)
        && within(LEAST_SETTING, settings.universe, MOST_UNIVERSE)
}

// The settings test: refusal 1, 2 or 3, tested in this order.
pub fn test_settings(settings: Settings) -> Result<(), Refusal>
    ensures { refusal_told result ≡ settings_refusal settings }
{
    if !all_within(settings) {
        return Err(Refusal::SettingOutOfRange);
    }
    if settings.phi < settings.epsilon {
        return Err(Refusal::PhiBelowEpsilon);
    }
    let product = (settings.capacity as u64) * (settings.epsilon as u64);
    if product < LEAST_PRODUCT {
        return Err(Refusal::TooFewCounters);
    }
    Ok(())
}

// How many messages follow one arrival at most: "23 × k + 2".
pub fn most_messages(settings: Settings) -> u64
    ensures { result ≡ most_messages settings }
{
    CLOSING_MESSAGES * (settings.sites as u64) + ARRIVAL_MESSAGES
}

// The binary digits of n: how many halvings bring it to 0.
fn count_digits(n: u64) -> u64
    ensures { result ≡ digits n }
{
    let mut left = n;
    let mut count: u64 = 0;
    while 0 < left {
        left = left / 2;
        count += 1;
    }
    count
}

// How many messages n arrivals may cost at most under settings that passed their test.
fn allowance_of(settings: Settings, arrivals: u64) -> u64
    requires { settings_refusal settings ≡ no_refusal }
    ensures { result ≡ allowance settings arrivals }
{
    let rounds = count_digits(arrivals) + 1;
    let sites = settings.sites as u64;
    let epsilon = settings.epsilon as u64;
    ALLOWANCE_FACTOR * (sites * rounds) / epsilon
}

// How many messages n arrivals may cost at most under these settings (demand 3).
pub fn message_allowance(settings: Settings, arrivals: u64) -> Result<u64, Refusal>
    ensures { AllowanceSays settings arrivals result }
{
    test_settings(settings)?;
    Ok(allowance_of(settings, arrivals))
}
