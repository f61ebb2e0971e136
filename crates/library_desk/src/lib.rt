// Starting the desk, a message for it, and the messages of kind 7 that it announces.
// As it is: a call answers with the number of its refusal, or 0, since the C interface needs it.

#![tactic(auto)]

ghost use Rattle.library_rows.specs.Rows.{lent};
ghost use Rattle.library_desk.specs.Desk.{StartDeskExported, DeskMessageExported, AnnouncementExported};

use coordinator_numbers::{COORDINATOR_NUMBERS, coordinator_from, coordinator_row};
use library_rows::hand_message;
use model::{MESSAGE_WIDTH, NO_REFUSAL};
use record_numbers::{SETTINGS_NUMBERS, message_from, message_row, settings_from};

// `coordinator::start_coordinator`.
pub fn tracker_start_desk(
    settings: &[u32; SETTINGS_NUMBERS],
    desk: &mut [u64; COORDINATOR_NUMBERS],
    memory: &mut [u64],
) -> u32
    ensures { StartDeskExported (lent settings.now settings.now) (lent desk.old desk.new)
        (lent memory.old memory.new) result }
{
    match coordinator::start_coordinator(settings_from(settings), memory) {
        Err(refusal) => refusal.number(),
        Ok(fresh) => {
            *desk = coordinator_row(fresh);
            NO_REFUSAL
        }
    }
}

// `coordinator::receive`.
pub fn tracker_desk_message(
    settings: &[u32; SETTINGS_NUMBERS],
    desk: &mut [u64; COORDINATOR_NUMBERS],
    memory: &mut [u64],
    message: &[u64; MESSAGE_WIDTH],
    out: &mut [u64; MESSAGE_WIDTH],
    count: &mut u32,
) -> u32
    ensures { DeskMessageExported (lent settings.now settings.now) (lent desk.old desk.new)
        (lent memory.old memory.new) (lent message.now message.now)
        (lent out.old out.new) (lent count.old count.new) result }
{
    match coordinator::receive(
        settings_from(settings),
        coordinator_from(desk),
        message_from(message),
        memory,
    ) {
        Err(refusal) => refusal.number(),
        Ok(received) => {
            *desk = coordinator_row(received.coordinator);
            hand_message(received.count, received.out, out, count);
            NO_REFUSAL
        }
    }
}

// `coordinator::next_announcement`.
pub fn tracker_desk_announcement(
    settings: &[u32; SETTINGS_NUMBERS],
    desk: &mut [u64; COORDINATOR_NUMBERS],
    memory: &[u64],
    out: &mut [u64; MESSAGE_WIDTH],
) -> u32
    ensures { AnnouncementExported (lent settings.now settings.now) (lent desk.old desk.new)
        (lent memory.now memory.now) (lent out.old out.new)
        result }
{
    match coordinator::next_announcement(settings_from(settings), coordinator_from(desk), memory) {
        Err(refusal) => refusal.number(),
        Ok(announced) => {
            *desk = coordinator_row(announced.coordinator);
            *out = message_row(announced.out);
            NO_REFUSAL
        }
    }
}
