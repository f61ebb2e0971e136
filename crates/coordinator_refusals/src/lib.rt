// Why a message is refused: document 01's rows 5, 9, 6, 7 and 10, each by a test of its own, on the
// record alone.

#![tactic(auto)]

ghost use Rattle.std.specs.Prelude.{◌≡◌, ◌&&◌, not, List, ℕ, leb};
ghost use Rattle.model.specs.declared.Settings.{Settings};
ghost use Rattle.model.specs.Messages.{is_item_report};
ghost use Rattle.model.specs.Coordinator.{due_in, asked_value, names_large_value, wrong_at_coordinator, coordinator_due_refusal, coordinator_refusal};
ghost use Rattle.model.specs.CoordinatorMemory.{coordinator_in};
ghost use Rattle.model.specs.Refusals.{refusal_told};

use model::{
    COUNT_REPORT, CoordinatorRecord, ITEM_REPORT, Message, POLL_ANSWER, PROBE_ANSWER, Phase,
    Refusal, SITE_LIMIT, Settings, TOP_VALUE,
};

// Whether the phase takes no message of this kind, or not from this site.
fn not_due(phase: Phase, message: Message) -> bool
    ensures { result ≡ not (due_in phase message) }
{
    match phase {
        Phase::Idle => !matches!(message.kind, ITEM_REPORT | COUNT_REPORT),
        Phase::Collecting(site) => message.kind != POLL_ANSWER || message.site != site,
        Phase::Probing(site, _, _, _) => message.kind != PROBE_ANSWER || message.site != site,
        Phase::Announcing(_) => true,
    }
}

// The value that a kind 6 must name.
fn asked_value(phase: Phase) -> u64
    ensures { result ≡ asked_value phase }
{
    match phase {
        Phase::Probing(_, low, high, _) => ((low as u64) + (high as u64)) / 2,
        _ => 0,
    }
}

// Whether a kind 1 names an item past the universe.
fn names_unknown_item(settings: Settings, message: Message) -> bool
    ensures { result ≡ (is_item_report message && leb settings.universe message.a) }
{
    message.kind == ITEM_REPORT && (settings.universe as u64) <= message.a
}

// Whether a value above 1023 stands where a message names a value.
fn names_large_value(coordinator: CoordinatorRecord, message: Message) -> bool
    ensures { (settings : Settings) (memory : List ℕ) → result ≡ names_large_value
        (coordinator_in settings coordinator memory) message }
{
    match message.kind {
        PROBE_ANSWER => (TOP_VALUE as u64) < message.a,
        COUNT_REPORT => coordinator.threshold == 1 && (TOP_VALUE as u64) < message.b,
        _ => false,
    }
}

// Whether an amount is not the one that is due, or a number is not 0 that must be.
fn wrong_amount(coordinator: CoordinatorRecord, message: Message) -> bool
    ensures { (settings : Settings) (memory : List ℕ) → result ≡ wrong_at_coordinator
        (coordinator_in settings coordinator memory) message }
{
    let due = coordinator.threshold;
    match message.kind {
        ITEM_REPORT => message.b != due,
        COUNT_REPORT => message.a != due || (due != 1 && message.b != 0),
        POLL_ANSWER => due <= message.a || message.b != 0,
        PROBE_ANSWER => message.a != asked_value(coordinator.phase) || SITE_LIMIT < message.b,
        _ => false,
    }
}

// Why the kind, the item, the value or the amounts of a message are refused: 9, 6, 7, 10.
fn test_due(
    settings: Settings,
    coordinator: CoordinatorRecord,
    message: Message,
) -> Result<(), Refusal>
    ensures { (memory : List ℕ) → refusal_told result ≡ coordinator_due_refusal settings
        (coordinator_in settings coordinator memory) message }
{
    if not_due(coordinator.phase, message) {
        return Err(Refusal::MessageNotDue);
    }
    if names_unknown_item(settings, message) {
        return Err(Refusal::UnknownItem);
    }
    if names_large_value(coordinator, message) {
        return Err(Refusal::ValueTooLarge);
    }
    if wrong_amount(coordinator, message) {
        return Err(Refusal::AmountNotDue);
    }
    Ok(())
}

// The test of a message: refusal 5; then 9, 6, 7, 10.
pub fn test_message(
    settings: Settings,
    coordinator: CoordinatorRecord,
    message: Message,
) -> Result<(), Refusal>
    ensures { (memory : List ℕ) → refusal_told result ≡ coordinator_refusal settings
        (coordinator_in settings coordinator memory) message }
{
    if settings.sites <= message.site {
        return Err(Refusal::UnknownSite);
    }
    test_due(settings, coordinator, message)
}
