// The calls that tracker.h declares, as C calls them, but for `tracker_run` (`library_batch_c`).
// Each makes the call of the same name of a library below, and promises what that promises.

#![tactic(auto)]

ghost use Rattle.library_rows.specs.Rows.{lent};
ghost use Rattle.library_lengths.specs.Lengths.{LengthsExported};
ghost use Rattle.library_deck.specs.OneDeck.{StartDeckExported, DeckDrawExported, DeckMessageExported};
ghost use Rattle.library_decks.specs.AllDecks.{StartDecksExported, DecksDrawExported, DecksMessageExported};
ghost use Rattle.library_desk.specs.Desk.{StartDeskExported, DeskMessageExported, AnnouncementExported};
ghost use Rattle.library_reading.specs.Reading.{ListExported, MarginExported, ClassExported};
ghost use Rattle.library_delivery.specs.Delivery.{DeliveryExported};
ghost use Rattle.library_snapshot.specs.Snapshot.{FileLengthExported, SaveExported, LoadExported};

use coordinator_numbers::COORDINATOR_NUMBERS;
use library_delivery::DELIVERY_NUMBERS;
use library_lengths::LENGTHS;
use library_rows::TWO_MESSAGES;
use model::{MESSAGE_WIDTH, Word};
use record_numbers::{ARRIVAL_NUMBERS, SETTINGS_NUMBERS};
use site_numbers::{SITE_NUMBERS, SITES_NUMBERS};

// The lengths of all that is lent go to `lengths`, or the refusal of the settings.
#[unsafe(no_mangle)]
pub extern "C" fn tracker_test_lengths(
    settings: &[u32; SETTINGS_NUMBERS],
    lengths: &mut [u64; LENGTHS],
) -> u32
    ensures { LengthsExported settings.now lengths.old lengths.new result }
{
    library_lengths::tracker_test_lengths(settings, lengths)
}

// `site_start::start_site`.
#[unsafe(no_mangle)]
pub extern "C" fn tracker_start_deck(
    settings: &[u32; SETTINGS_NUMBERS],
    deck: u32,
    row: &mut [u64; SITE_NUMBERS],
    memory: &mut [Word],
) -> u32
    ensures { StartDeckExported (lent settings.now settings.now) deck (lent row.old row.new)
        (lent memory.old memory.new) result }
{
    library_deck::tracker_start_deck(settings, deck, row, memory)
}

// `site::observe`, of a draw that names this deck.
#[unsafe(no_mangle)]
pub extern "C" fn tracker_deck_draw(
    settings: &[u32; SETTINGS_NUMBERS],
    deck: u32,
    row: &mut [u64; SITE_NUMBERS],
    memory: &mut [Word],
    code: u32,
    class: u32,
    out: &mut [u64; TWO_MESSAGES],
    count: &mut u32,
) -> u32
    ensures { DeckDrawExported (lent settings.now settings.now) deck (lent row.old row.new)
        (lent memory.old memory.new) code class (lent out.old out.new) (lent count.old count.new)
        result }
{
    library_deck::tracker_deck_draw(settings, deck, row, memory, code, class, out, count)
}

// `site::receive`.
#[unsafe(no_mangle)]
pub extern "C" fn tracker_deck_message(
    settings: &[u32; SETTINGS_NUMBERS],
    deck: u32,
    row: &mut [u64; SITE_NUMBERS],
    memory: &[Word],
    message: &[u64; MESSAGE_WIDTH],
    reply: &mut [u64; MESSAGE_WIDTH],
    count: &mut u32,
) -> u32
    ensures { DeckMessageExported (lent settings.now settings.now) deck (lent row.old row.new)
        (lent memory.now memory.now) (lent message.now message.now) (lent reply.old reply.new)
        (lent count.old count.new) result }
{
    library_deck::tracker_deck_message(settings, deck, row, memory, message, reply, count)
}

// `site_start::start_sites`.
#[unsafe(no_mangle)]
pub extern "C" fn tracker_start_decks(
    settings: &[u32; SETTINGS_NUMBERS],
    decks: &mut [u64; SITES_NUMBERS],
    memory: &mut [Word],
) -> u32
    ensures { StartDecksExported (lent settings.now settings.now) (lent decks.old decks.new)
        (lent memory.old memory.new) result }
{
    library_decks::tracker_start_decks(settings, decks, memory)
}

// A draw at the deck that it names.
#[unsafe(no_mangle)]
pub extern "C" fn tracker_decks_draw(
    settings: &[u32; SETTINGS_NUMBERS],
    decks: &mut [u64; SITES_NUMBERS],
    memory: &mut [Word],
    draw: &[u32; ARRIVAL_NUMBERS],
    out: &mut [u64; TWO_MESSAGES],
    count: &mut u32,
) -> u32
    ensures { DecksDrawExported (lent settings.now settings.now) (lent decks.old decks.new)
        (lent memory.old memory.new) (lent draw.now draw.now) (lent out.old out.new)
        (lent count.old count.new) result }
{
    library_decks::tracker_decks_draw(settings, decks, memory, draw, out, count)
}

// A message at the deck that it names.
#[unsafe(no_mangle)]
pub extern "C" fn tracker_decks_message(
    settings: &[u32; SETTINGS_NUMBERS],
    decks: &mut [u64; SITES_NUMBERS],
    memory: &[Word],
    message: &[u64; MESSAGE_WIDTH],
    reply: &mut [u64; MESSAGE_WIDTH],
    count: &mut u32,
) -> u32
    ensures { DecksMessageExported (lent settings.now settings.now) (lent decks.old decks.new)
        (lent memory.now memory.now) (lent message.now message.now) (lent reply.old reply.new)
        (lent count.old count.new) result }
{
    library_decks::tracker_decks_message(settings, decks, memory, message, reply, count)
}

// `coordinator::start_coordinator`.
#[unsafe(no_mangle)]
pub extern "C" fn tracker_start_desk(
    settings: &[u32; SETTINGS_NUMBERS],
    desk: &mut [u64; COORDINATOR_NUMBERS],
    memory: &mut [u64],
) -> u32
    ensures { StartDeskExported (lent settings.now settings.now) (lent desk.old desk.new)
        (lent memory.old memory.new) result }
{
    library_desk::tracker_start_desk(settings, desk, memory)
}

// `coordinator::receive`.
#[unsafe(no_mangle)]
pub extern "C" fn tracker_desk_message(
    settings: &[u32; SETTINGS_NUMBERS],
    desk: &mut [u64; COORDINATOR_NUMBERS],
    memory: &mut [u64],
    message: &[u64; MESSAGE_WIDTH],
    out: &mut [u64; MESSAGE_WIDTH],
    count: &mut u32,
) -> u32
    ensures { DeskMessageExported (lent settings.now settings.now) (lent desk.old desk.new)
        (lent memory.old memory.new) (lent message.now message.now) (lent out.old out.new)
        (lent count.old count.new) result }
{
    library_desk::tracker_desk_message(settings, desk, memory, message, out, count)
}

// `coordinator::next_announcement`.
#[unsafe(no_mangle)]
pub extern "C" fn tracker_desk_announcement(
    settings: &[u32; SETTINGS_NUMBERS],
    desk: &mut [u64; COORDINATOR_NUMBERS],
    memory: &[u64],
    out: &mut [u64; MESSAGE_WIDTH],
) -> u32
    ensures { AnnouncementExported (lent settings.now settings.now) (lent desk.old desk.new)
        (lent memory.now memory.now) (lent out.old out.new) result }
{
    library_desk::tracker_desk_announcement(settings, desk, memory, out)
}

// `coordinator_list::list_heavy_hitters`.
#[unsafe(no_mangle)]
pub extern "C" fn tracker_desk_list(
    settings: &[u32; SETTINGS_NUMBERS],
    desk: &[u64; COORDINATOR_NUMBERS],
    memory: &[u64],
    codes: &mut [u32],
    count: &mut usize,
) -> u32
    ensures { ListExported (lent settings.now settings.now) (lent desk.now desk.now)
        (lent memory.now memory.now) (lent codes.old codes.new) (lent count.old count.new) result }
{
    library_reading::tracker_desk_list(settings, desk, memory, codes, count)
}

// `coordinator_reading::read_margin`.
#[unsafe(no_mangle)]
pub extern "C" fn tracker_desk_margin(
    settings: &[u32; SETTINGS_NUMBERS],
    desk: &[u64; COORDINATOR_NUMBERS],
    memory: &[u64],
    code: u32,
    margin: &mut i64,
) -> u32
    ensures { MarginExported (lent settings.now settings.now) (lent desk.now desk.now)
        (lent memory.now memory.now) code (lent margin.old margin.new) result }
{
    library_reading::tracker_desk_margin(settings, desk, memory, code, margin)
}

// `coordinator_reading::read_quantile`.
#[unsafe(no_mangle)]
pub extern "C" fn tracker_desk_class(
    settings: &[u32; SETTINGS_NUMBERS],
    desk: &[u64; COORDINATOR_NUMBERS],
    memory: &[u64],
    class: &mut u32,
) -> u32
    ensures { ClassExported (lent settings.now settings.now) (lent desk.now desk.now)
        (lent memory.now memory.now) (lent class.old class.new) result }
{
    library_reading::tracker_desk_class(settings, desk, memory, class)
}

// `single_delivery::deliver_arrival`.
#[unsafe(no_mangle)]
pub extern "C" fn tracker_deliver(
    settings: &[u32; SETTINGS_NUMBERS],
    decks: &mut [u64; SITES_NUMBERS],
    desk: &mut [u64; COORDINATOR_NUMBERS],
    deck_memory: &mut [Word],
    desk_memory: &mut [u64],
    draw: &[u32; ARRIVAL_NUMBERS],
    delivery: &mut [u64; DELIVERY_NUMBERS],
) -> u32
    ensures { DeliveryExported (lent settings.now settings.now) (lent decks.old decks.new)
        (lent desk.old desk.new) (lent deck_memory.old deck_memory.new)
        (lent desk_memory.old desk_memory.new) (lent draw.now draw.now)
        (lent delivery.old delivery.new) result }
{
    library_delivery::tracker_deliver(
        settings,
        decks,
        desk,
        deck_memory,
        desk_memory,
        draw,
        delivery,
    )
}

// How many bytes a file has, by the settings alone.
#[unsafe(no_mangle)]
pub extern "C" fn tracker_file_length(settings: &[u32; SETTINGS_NUMBERS], length: &mut usize) -> u32
    ensures { FileLengthExported (lent settings.now settings.now) (lent length.old length.new)
        result }
{
    library_snapshot::tracker_file_length(settings, length)
}

// `snapshot_saving::save_bench`.
#[unsafe(no_mangle)]
pub extern "C" fn tracker_save(
    settings: &[u32; SETTINGS_NUMBERS],
    decks: &[u64; SITES_NUMBERS],
    desk: &[u64; COORDINATOR_NUMBERS],
    deck_memory: &[Word],
    desk_memory: &[u64],
    bytes: &mut [u8],
    length: &mut usize,
) -> u32
    ensures { SaveExported (lent settings.now settings.now) (lent decks.now decks.now)
        (lent desk.now desk.now) (lent deck_memory.now deck_memory.now)
        (lent desk_memory.now desk_memory.now) (lent bytes.old bytes.new)
        (lent length.old length.new) result }
{
    library_snapshot::tracker_save(
        settings,
        decks,
        desk,
        deck_memory,
        desk_memory,
        bytes,
        length,
    )
}

// `snapshot_loading::load_bench`.
#[unsafe(no_mangle)]
pub extern "C" fn tracker_load(
    file: &[u8],
    settings: &mut [u32; SETTINGS_NUMBERS],
    decks: &mut [u64; SITES_NUMBERS],
    desk: &mut [u64; COORDINATOR_NUMBERS],
    deck_memory: &mut [Word],
    desk_memory: &mut [u64],
) -> u32
    ensures { LoadExported (lent file.now file.now) (lent settings.old settings.new)
        (lent decks.old decks.new) (lent desk.old desk.new) (lent deck_memory.old deck_memory.new)
        (lent desk_memory.old desk_memory.new) result }
{
    library_snapshot::tracker_load(file, settings, decks, desk, deck_memory, desk_memory)
}
