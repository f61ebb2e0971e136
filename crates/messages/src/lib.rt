// Messages, made: document 01's table of kinds, one maker for each row, the place of a message that
// is absent, and which way a message goes. No other place of the product makes a message.

#![tactic(auto)]

ghost use Rattle.std.specs.Prelude.{◌≡◌};
ghost use Rattle.model.specs.Messages.{message, no_message, item_report, count_report, poll, poll_answer, probe, probe_answer, announcement, to_coordinator};

use model::{
    ANNOUNCEMENT, COUNT_REPORT, ITEM_REPORT, Message, POLL, POLL_ANSWER, PROBE, PROBE_ANSWER,
};

// A message of four numbers, as a caller hands them over, whatever they are.
pub fn message_of(kind: u32, site: u32, a: u64, b: u64) -> Message
    ensures { result ≡ message kind site a b }
{
    Message { kind, site, a, b }
}

// No message: zeros.
pub fn no_message() -> Message
    ensures { result ≡ no_message }
{
    message_of(0, 0, 0, 0)
}

// A kind 1.
pub fn item_report_of(site: u32, item: u32, amount: u64) -> Message
    ensures { result ≡ item_report site item amount }
{
    message_of(ITEM_REPORT, site, item as u64, amount)
}

// A kind 2.
pub fn count_report_of(site: u32, amount: u64, value: u64) -> Message
    ensures { result ≡ count_report site amount value }
{
    message_of(COUNT_REPORT, site, amount, value)
}

// A kind 3.
pub fn poll_of(site: u32) -> Message
    ensures { result ≡ poll site }
{
    message_of(POLL, site, 0, 0)
}

// A kind 4.
pub fn poll_answer_of(site: u32, pending: u64) -> Message
    ensures { result ≡ poll_answer site pending }
{
    message_of(POLL_ANSWER, site, pending, 0)
}

// A kind 5.
pub fn probe_of(site: u32, value: u32) -> Message
    ensures { result ≡ probe site value }
{
    message_of(PROBE, site, value as u64, 0)
}

// A kind 6.
pub fn probe_answer_of(site: u32, value: u64, count: u64) -> Message
    ensures { result ≡ probe_answer site value count }
{
    message_of(PROBE_ANSWER, site, value, count)
}

// A kind 7.
pub fn announcement_of(site: u32, threshold: u64, base: u64) -> Message
    ensures { result ≡ announcement site threshold base }
{
    message_of(ANNOUNCEMENT, site, threshold, base)
}

// Whether a message is for the coordinator: the kinds 1, 2, 4 and 6.
pub fn to_coordinator(message: Message) -> bool
    ensures { result ≡ to_coordinator message }
{
    matches!(
        message.kind,
        ITEM_REPORT | COUNT_REPORT | POLL_ANSWER | PROBE_ANSWER
    )
}
