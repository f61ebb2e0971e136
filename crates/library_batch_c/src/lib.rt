// `tracker_run` of tracker.h, as C calls it: the call of `library_batch`. It stands apart from the
// other calls (`tracker_c`), so that the compiler builds what it runs for each draw into its loop.

#![tactic(auto)]

ghost use Rattle.library_rows.specs.Rows.{lent};
ghost use Rattle.library_batch.specs.Batch.{RunExported};

use coordinator_numbers::COORDINATOR_NUMBERS;
use library_batch::COUNTS_NUMBERS;
use model::{Arrival, Word};
use record_numbers::SETTINGS_NUMBERS;
use site_numbers::SITES_NUMBERS;

// `tracker::run_batch`, over records as rows of numbers.
#[unsafe(no_mangle)]
pub extern "C" fn tracker_run(
    settings: &[u32; SETTINGS_NUMBERS],
    decks: &mut [u64; SITES_NUMBERS],
    desk: &mut [u64; COORDINATOR_NUMBERS],
    draws: &[Arrival],
    deck_memory: &mut [Word],
    desk_memory: &mut [u64],
    log: &mut [u64],
    counts: &mut [u64; COUNTS_NUMBERS],
) -> u32
    ensures { RunExported (lent settings.now settings.now) (lent decks.old decks.new)
        (lent desk.old desk.new) draws.now (lent deck_memory.old deck_memory.new)
        (lent desk_memory.old desk_memory.new) (lent log.old log.new) (lent counts.old counts.new)
        result }
{
    library_batch::tracker_run(
        settings,
        decks,
        desk,
        draws,
        deck_memory,
        desk_memory,
        log,
        counts,
    )
}
