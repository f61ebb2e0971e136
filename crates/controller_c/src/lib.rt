// The three functions that the bench controller, written in C, calls: controller.h declares them.
// Each makes the call of the library `controller` and promises what that promises.

#![tactic(auto)]

ghost use Rattle.std.specs.Prelude.{◌≡◌};
ghost use Rattle.model.specs.Settings.{settings_with, settings_refusal};
ghost use Rattle.controller.specs.Promises.{AllowanceExported, LineExported, line_numbers};

// The settings test: 0, or refusal 1, 2 or 3.
#[unsafe(no_mangle)]
pub extern "C" fn tracker_test_settings(
    sites: u32,
    epsilon: u32,
    phi: u32,
    rank: u32,
    capacity: u32,
    universe: u32,
) -> u32
    ensures { result ≡ settings_refusal (settings_with sites epsilon phi rank capacity universe) }
{
    controller::tracker_test_settings(sites, epsilon, phi, rank, capacity, universe)
}

// The allowance of `arrivals` draws into `messages`, or the refusal of the settings.
#[unsafe(no_mangle)]
pub extern "C" fn tracker_allowance(
    sites: u32,
    epsilon: u32,
    phi: u32,
    rank: u32,
    capacity: u32,
    universe: u32,
    arrivals: u64,
    messages: &mut u64,
) -> u32
    ensures { AllowanceExported (settings_with sites epsilon phi rank capacity universe)
        arrivals messages.old messages.new result }
{
    controller::tracker_allowance(
        sites, epsilon, phi, rank, capacity, universe, arrivals, messages,
    )
}

// The line test: deck, code and class of the first line and the bytes it takes, or refusal 13.
#[unsafe(no_mangle)]
pub extern "C" fn tracker_test_line(
    bytes: &[u8],
    site: &mut u32,
    item: &mut u32,
    value: &mut u32,
    used: &mut usize,
) -> u32
    ensures { LineExported bytes.now (line_numbers site.old
        item.old value.old used.old)
        (line_numbers site.new item.new value.new used.new)
        result }
{
    controller::tracker_test_line(bytes, site, item, value, used)
}
