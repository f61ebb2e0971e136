// Reading the desk: the list, the margin of a code, the class. The record is only read.
// As it is: a call answers with the number of its refusal, or 0, since the C interface needs it.

#![tactic(auto)]

ghost use Rattle.library_rows.specs.Rows.{lent};
ghost use Rattle.library_reading.specs.Reading.{ListExported, MarginExported, ClassExported};

use coordinator_numbers::{COORDINATOR_NUMBERS, coordinator_from};
use model::NO_REFUSAL;
use record_numbers::{SETTINGS_NUMBERS, settings_from};

// The number that stands for no class: the greatest of four bytes.
pub const NO_CLASS: u32 = 4294967295;

// `coordinator_list::list_heavy_hitters`.
pub fn tracker_desk_list(
    settings: &[u32; SETTINGS_NUMBERS],
    desk: &[u64; COORDINATOR_NUMBERS],
    memory: &[u64],
    codes: &mut [u32],
    count: &mut usize,
) -> u32
    ensures { ListExported (lent settings.now settings.now) (lent desk.now desk.now)
        (lent memory.now memory.now) (lent codes.old codes.new)
        (lent count.old count.new) result }
{
    match coordinator_list::list_heavy_hitters(
        settings_from(settings),
        coordinator_from(desk),
        memory,
        codes,
    ) {
        Err(refusal) => refusal.number(),
        Ok(listed) => {
            *count = listed as usize;
            NO_REFUSAL
        }
    }
}

// `coordinator_reading::read_margin`.
pub fn tracker_desk_margin(
    settings: &[u32; SETTINGS_NUMBERS],
    desk: &[u64; COORDINATOR_NUMBERS],
    memory: &[u64],
    code: u32,
    margin: &mut i64,
) -> u32
    ensures { MarginExported (lent settings.now settings.now) (lent desk.now desk.now)
        (lent memory.now memory.now) code (lent margin.old margin.new)
        result }
{
    match coordinator_reading::read_margin(
        settings_from(settings),
        coordinator_from(desk),
        code,
        memory,
    ) {
        Err(refusal) => refusal.number(),
        Ok(read) => {
            *margin = read;
            NO_REFUSAL
        }
    }
}

// `coordinator_reading::read_quantile`.
pub fn tracker_desk_class(
    settings: &[u32; SETTINGS_NUMBERS],
    desk: &[u64; COORDINATOR_NUMBERS],
    memory: &[u64],
    class: &mut u32,
) -> u32
    ensures { ClassExported (lent settings.now settings.now) (lent desk.now desk.now)
        (lent memory.now memory.now) (lent class.old class.new) result }
{
    match coordinator_reading::read_quantile(
        settings_from(settings),
        coordinator_from(desk),
        memory,
    ) {
        Err(refusal) => refusal.number(),
        Ok(quantile) => {
            *class = quantile.unwrap_or(NO_CLASS);
            NO_REFUSAL
        }
    }
}
