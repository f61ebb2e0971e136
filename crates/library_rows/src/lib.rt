// The messages that a call of the library hands out, as rows of numbers: where it accepts, and a
// refused call never gets here. The functions serve the crates `library_deck` and `library_decks`,
// and `hand_message` serves `library_desk` too.

#![tactic(auto)]

ghost use Rattle.model.specs.Refusals.{no_refusal};
ghost use Rattle.library_rows.specs.Rows.{lent, HandMessageSays, HandMessagesSays};

use model::{MESSAGE_WIDTH, Message};
use record_numbers::message_row;

// The numbers of two messages.
pub const TWO_MESSAGES: usize = 2 * MESSAGE_WIDTH;

// One message, and how many there are.
pub fn hand_message(sent: u32, message: Message, out: &mut [u64; MESSAGE_WIDTH], count: &mut u32)
    ensures { HandMessageSays no_refusal sent message (lent out.old out.new)
        (lent count.old count.new) }
{
    *out = message_row(message);
    *count = sent;
}

// Two messages, and how many there are.
pub fn hand_messages(
    sent: u32,
    first: Message,
    second: Message,
    out: &mut [u64; TWO_MESSAGES],
    count: &mut u32,
)
    ensures { HandMessagesSays no_refusal sent first second (lent out.old out.new)
        (lent count.old count.new) }
{
    out[..MESSAGE_WIDTH].copy_from_slice(&message_row(first));
    out[MESSAGE_WIDTH..].copy_from_slice(&message_row(second));
    *count = sent;
}
