// The calls of the library on one deck (tracker.h), with its own record and its own part of the
// memory: for a process that holds one. The record is a row of numbers behind a pointer, which C
// sees as a struct. Each call reads its rows, makes the site's call, and writes what that hands
// back where it accepts.
// As it is: a call answers with the number of its refusal, or 0, since the C interface needs it.

#![tactic(auto)]

ghost use Rattle.library_rows.specs.Rows.{lent};
ghost use Rattle.library_deck.specs.OneDeck.{StartDeckExported, DeckDrawExported, DeckMessageExported};

use library_rows::{TWO_MESSAGES, hand_message, hand_messages};
use model::{Arrival, MESSAGE_WIDTH, NO_REFUSAL, Word};
use record_numbers::{SETTINGS_NUMBERS, message_from, settings_from};
use site_numbers::{SITE_NUMBERS, site_from, site_row};

// `site_start::start_site`.
pub fn tracker_start_deck(
    settings: &[u32; SETTINGS_NUMBERS],
    deck: u32,
    row: &mut [u64; SITE_NUMBERS],
    memory: &mut [Word],
) -> u32
    ensures { StartDeckExported (lent settings.now settings.now) deck (lent row.old row.new)
        (lent memory.old memory.new) result }
{
    match site_start::start_site(settings_from(settings), deck, memory) {
        Err(refusal) => refusal.number(),
        Ok(fresh) => {
            *row = site_row(fresh);
            NO_REFUSAL
        }
    }
}

// `site::observe`, of a draw that names this deck.
pub fn tracker_deck_draw(
    settings: &[u32; SETTINGS_NUMBERS],
    deck: u32,
    row: &mut [u64; SITE_NUMBERS],
    memory: &mut [Word],
    code: u32,
    class: u32,
    out: &mut [u64; TWO_MESSAGES],
    count: &mut u32,
) -> u32
    ensures { DeckDrawExported (lent settings.now settings.now) deck (lent row.old row.new)
        (lent memory.old memory.new) code class
        (lent out.old out.new) (lent count.old count.new) result }
{
    let arrival = Arrival {
        site: deck,
        item: code,
        value: class,
    };
    match site::observe(settings_from(settings), site_from(row), arrival, memory) {
        Err(refusal) => refusal.number(),
        Ok(observed) => {
            *row = site_row(observed.site);
            hand_messages(observed.count, observed.first, observed.second, out, count);
            NO_REFUSAL
        }
    }
}

// `site::receive`.
pub fn tracker_deck_message(
    settings: &[u32; SETTINGS_NUMBERS],
    deck: u32,
    row: &mut [u64; SITE_NUMBERS],
    memory: &[Word],
    message: &[u64; MESSAGE_WIDTH],
    reply: &mut [u64; MESSAGE_WIDTH],
    count: &mut u32,
) -> u32
    ensures { DeckMessageExported (lent settings.now settings.now) deck (lent row.old row.new)
        (lent memory.now memory.now)
        (lent message.now message.now) (lent reply.old reply.new)
        (lent count.old count.new) result }
{
    match site::receive(
        settings_from(settings),
        site_from(row),
        deck,
        message_from(message),
        memory,
    ) {
        Err(refusal) => refusal.number(),
        Ok(replied) => {
            *row = site_row(replied.site);
            hand_message(replied.count, replied.reply, reply, count);
            NO_REFUSAL
        }
    }
}
