// Why an arrival or a message is refused at a site: document 01's rows 5 to 10, each by a test of
// its own, on the record alone. Nothing is changed here.

#![tactic(auto)]

ghost use Rattle.std.specs.Prelude.{◌≡◌, not, ◌&&◌, ltb};
ghost use Rattle.model.specs.Refusals.{refusal_told};
ghost use Rattle.model.specs.Limits.{top_value};
ghost use Rattle.model.specs.Draws.{is_draw};
ghost use Rattle.model.specs.Messages.{is_probe};
ghost use Rattle.model.specs.Site.{address_refusal, room_refusal, line_refusal, due_at_site, wrong_at_site, site_due_refusal, site_message_refusal};
ghost use Rattle.site_refusals.specs.Bare.{bare_site};

use model::{
    ANNOUNCEMENT, Arrival, LEAST_DRAWN, Message, POLL, PROBE, Refusal, SITE_LIMIT, Settings,
    SiteRecord, TOP_VALUE,
};

// Whether an arrival's site, item and value are known: 5, 6, 7.
pub fn test_address(settings: Settings, arrival: Arrival) -> Result<(), Refusal>
    ensures { refusal_told result ≡ address_refusal settings arrival }
{
    if settings.sites <= arrival.site {
        return Err(Refusal::UnknownSite);
    }
    if settings.universe <= arrival.item {
        return Err(Refusal::UnknownItem);
    }
    if TOP_VALUE < arrival.value {
        return Err(Refusal::ValueTooLarge);
    }
    Ok(())
}

// Whether a site takes a further arrival: 8.
fn test_room(site: SiteRecord) -> Result<(), Refusal>
    ensures { refusal_told result ≡ room_refusal (bare_site site) }
{
    if SITE_LIMIT <= site.arrivals {
        return Err(Refusal::SiteFull);
    }
    Ok(())
}

// Whether an arrival is a draw; if not, it is a touch.
pub fn is_draw(arrival: Arrival) -> bool
    ensures { result ≡ is_draw arrival }
{
    LEAST_DRAWN <= arrival.value
}

// Whether an arrival is taken at a site that is consistent: 5, 6, 7; then 8, unless it is a touch.
pub fn test_arrival(settings: Settings, site: SiteRecord, arrival: Arrival) -> Result<(), Refusal>
    ensures { refusal_told result ≡ line_refusal settings (bare_site site) arrival }
{
    test_address(settings, arrival)?;
    if is_draw(arrival) {
        test_room(site)?;
    }
    Ok(())
}

// Whether a message is not due at a site: of another kind, or with another site's number.
fn message_not_due(which: u32, message: Message) -> bool
    ensures { result ≡ not (due_at_site which message) }
{
    message.site != which || !matches!(message.kind, POLL | PROBE | ANNOUNCEMENT)
}

// Whether a probe asks for a value that is none.
fn value_unknown(message: Message) -> bool
    ensures { result ≡ (is_probe message && ltb top_value message.a) }
{
    message.kind == PROBE && (TOP_VALUE as u64) < message.a
}

// Whether a message's amounts are not due at a site.
fn amount_wrong(site: SiteRecord, message: Message) -> bool
    ensures { result ≡ wrong_at_site (bare_site site) message }
{
    match message.kind {
        POLL => message.a != 0 || message.b != 0,
        PROBE => message.b != 0,
        ANNOUNCEMENT => message.a < site.threshold || SITE_LIMIT < message.a,
        _ => false,
    }
}

// Whether the kind, the value and the amounts of a message are due: 9, 7, 10.
fn test_due(site: SiteRecord, which: u32, message: Message) -> Result<(), Refusal>
    ensures { refusal_told result ≡ site_due_refusal (bare_site site) which message }
{
    if message_not_due(which, message) {
        return Err(Refusal::MessageNotDue);
    }
    if value_unknown(message) {
        return Err(Refusal::ValueTooLarge);
    }
    if amount_wrong(site, message) {
        return Err(Refusal::AmountNotDue);
    }
    Ok(())
}

// Whether a message is taken at a site that is consistent: 5; then 9, 7, 10.
pub fn test_message(
    settings: Settings,
    site: SiteRecord,
    which: u32,
    message: Message,
) -> Result<(), Refusal>
    ensures { refusal_told result ≡ site_message_refusal settings (bare_site site) which message }
{
    if settings.sites <= message.site {
        return Err(Refusal::UnknownSite);
    }
    test_due(site, which, message)
}
