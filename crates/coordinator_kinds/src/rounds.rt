// Kinds 4 and 6, the answers by which a round is closed: the pendings that are collected, and the
// halving of the interval of values. They change the record alone. The functions are internal:
// `receive_step` alone calls them, and what they require follows from what it requires, which the
// tests of `receive` decide.
ghost use Rattle.std.specs.Prelude.{◌≡◌, List, ℕ, ◌+◌, ◌≤◌, ◌<◌};
ghost use Rattle.model.specs.Limits.{top_value};
ghost use Rattle.model.specs.Coordinator.{middle, closed, takes_poll_answer, narrowed, halved, takes_probe_answer};
ghost use Rattle.model.specs.CoordinatorMemory.{coordinator_in};
ghost use Rattle.coordinator_kinds.specs.Steps.{ThresholdAsks, PollAsks, HalveAsks, ProbeAsks, answer_of};

use crate::answers::{keep_silent, speak};
use crate::{Answered, threshold_of};
use messages::{poll_of, probe_of};
use model::{CoordinatorRecord, Message, Phase, RANK_FACTOR, Settings, TOP_VALUE};

// The round is closed, with a record whose total has all answers.
fn close(settings: Settings, coordinator: CoordinatorRecord) -> Answered
    requires { ThresholdAsks settings coordinator.total }
    ensures { (memory : List ℕ) → result ≡ answer_of
        (closed settings (coordinator_in settings coordinator memory) coordinator.total) }
{
    let threshold = threshold_of(settings, coordinator.total);
    let next = CoordinatorRecord {
        base: coordinator.total,
        threshold,
        ..coordinator
    };
    if 2 <= threshold {
        return speak(
            next,
            Phase::Probing(0, 0, TOP_VALUE, 0),
            probe_of(0, middle_of(0, TOP_VALUE)),
        );
    }
    keep_silent(next, Phase::Announcing(0))
}

// A kind 4 from the site that is polled. Internal: `receive` tests the site and the pending.
pub fn take_poll_answer(
    settings: Settings,
    coordinator: CoordinatorRecord,
    site: u32,
    message: Message,
) -> Answered
    requires { PollAsks settings coordinator site message }
    ensures { (memory : List ℕ) → result ≡ answer_of
        (takes_poll_answer settings (coordinator_in settings coordinator memory) site message) }
{
    let next = CoordinatorRecord {
        total: coordinator.total + message.a,
        ..coordinator
    };
    let following = site + 1;
    if following < settings.sites {
        return speak(next, Phase::Collecting(following), poll_of(following));
    }
    close(settings, next)
}

// The value that halves an interval.
fn middle_of(low: u32, high: u32) -> u32
    requires { low + high < 4294967296 }
    ensures { result ≡ middle low high }
{
    (low + high) / 2
}

// The halving goes on with an interval, or ends where one value remains.
fn narrow(settings: Settings, coordinator: CoordinatorRecord, low: u32, high: u32) -> Answered
    requires { (low ≤ high) × (high ≤ top_value) }
    ensures { (memory : List ℕ) → result ≡ answer_of
        (narrowed (coordinator_in settings coordinator memory) low high) }
{
    if low == high {
        let next = CoordinatorRecord {
            quantile: low,
            ..coordinator
        };
        return keep_silent(next, Phase::Announcing(0));
    }
    speak(
        coordinator,
        Phase::Probing(0, low, high, 0),
        probe_of(0, middle_of(low, high)),
    )
}

// The interval is halved by the sum of all answers.
fn halve(
    settings: Settings,
    coordinator: CoordinatorRecord,
    low: u32,
    high: u32,
    sum: u64,
) -> Answered
    requires { HalveAsks settings coordinator low high sum }
    ensures { (memory : List ℕ) → result ≡ answer_of
        (halved settings (coordinator_in settings coordinator memory) low high sum) }
{
    let half = middle_of(low, high);
    let needed = (settings.rank as u64) * coordinator.base;
    if needed <= RANK_FACTOR * sum {
        return narrow(settings, coordinator, low, half);
    }
    narrow(settings, coordinator, half + 1, high)
}

// A kind 6 from the site that is probed. Internal: `receive` tests the site, the interval and the
// count.
// As it is: the model's definitions (`receives_in`) have a phase's four numbers one by one.
pub fn take_probe_answer(
    settings: Settings,
    coordinator: CoordinatorRecord,
    site: u32,
    low: u32,
    high: u32,
    sum: u64,
    message: Message,
) -> Answered
    requires { ProbeAsks settings coordinator site low high (sum + message.b) }
    ensures { (memory : List ℕ) → result ≡ answer_of
        (takes_probe_answer settings (coordinator_in settings coordinator memory) site low high sum
        message) }
{
    let gained = sum + message.b;
    if site + 1 < settings.sites {
        let asked = probe_of(site + 1, middle_of(low, high));
        return speak(
            coordinator,
            Phase::Probing(site + 1, low, high, gained),
            asked,
        );
    }
    halve(settings, coordinator, low, high, gained)
}
