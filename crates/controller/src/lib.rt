// The three functions that the bench controller, written in C, calls: controller.h declares them.

#![tactic(auto)]

ghost use Rattle.std.specs.Prelude.{◌≡◌};
ghost use Rattle.model.specs.Settings.{settings_with, settings_refusal};
ghost use Rattle.controller.specs.Promises.{AllowanceExported, LineExported, line_numbers};

use model::{NO_REFUSAL, Settings, refusal_number};
use settings::{message_allowance, test_settings};
use worklist::test_line;

// The settings with these numbers.
// As it is: the C interface names the six settings one by one.
fn settings_from(
    sites: u32,
    epsilon: u32,
    phi: u32,
    rank: u32,
    capacity: u32,
    universe: u32,
) -> Settings
    ensures { result ≡ settings_with sites epsilon phi rank capacity universe }
{
    Settings {
        sites,
        epsilon,
        phi,
        rank,
        capacity,
        universe,
    }
}

// The settings test: 0, or refusal 1, 2 or 3.
pub fn tracker_test_settings(
    sites: u32,
    epsilon: u32,
    phi: u32,
    rank: u32,
    capacity: u32,
    universe: u32,
) -> u32
    ensures { result ≡ settings_refusal (settings_with sites epsilon phi rank capacity universe) }
{
    refusal_number(test_settings(settings_from(sites, epsilon, phi, rank, capacity, universe)))
}

// The allowance of `arrivals` draws into `messages`, or the refusal of the settings.
pub fn tracker_allowance(
    sites: u32,
    epsilon: u32,
    phi: u32,
    rank: u32,
    capacity: u32,
    universe: u32,
    arrivals: u64,
    messages: &mut u64,
) -> u32
    ensures { AllowanceExported (settings_with sites epsilon phi rank capacity universe)
        arrivals messages.old messages.new result }
{
    let settings = settings_from(sites, epsilon, phi, rank, capacity, universe);
    match message_allowance(settings, arrivals) {
        Ok(allowance) => {
            *messages = allowance;
            NO_REFUSAL
        }
        Err(refusal) => refusal.number(),
    }
}

// The line test: deck, code and class of the first line and the bytes it takes, or refusal 13.
pub fn tracker_test_line(
    bytes: &[u8],
    site: &mut u32,
    item: &mut u32,
    value: &mut u32,
    used: &mut usize,
) -> u32
    ensures { LineExported bytes.now (line_numbers site.old
        item.old value.old used.old)
        (line_numbers site.new item.new value.new used.new)
        result }
{
    match test_line(bytes) {
        Ok(line) => {
            *site = line.arrival.site;
            *item = line.arrival.item;
            *value = line.arrival.value;
            *used = line.used;
            NO_REFUSAL
        }
        Err(malformed) => malformed.number(),
    }
}
