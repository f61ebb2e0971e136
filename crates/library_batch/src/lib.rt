// `tracker_run` of tracker.h: the batch call on records that cross as rows of numbers. Before the
// tracker's call the records are made from their rows, and after it they are written back.
// As it is: the call answers with the number of its refusal, or 0, since the C interface needs it.

#![tactic(auto)]

ghost use Rattle.library_rows.specs.Rows.{lent};
ghost use Rattle.tracker_steps.specs.Steps.{batch_outcome};
ghost use Rattle.library_batch.specs.Batch.{OpenRowsSays, CloseRowsSays, RunExported};

use coordinator_numbers::{COORDINATOR_NUMBERS, coordinator_from, coordinator_row};
use model::{Arrival, CoordinatorRecord, NO_REFUSAL, Settings, Sites, Word};
use record_numbers::{SETTINGS_NUMBERS, settings_from};
use site_numbers::{SITES_NUMBERS, sites_from, sites_row};
use tracker_steps::BatchAnswer;

// The numbers of the counts: arrivals accepted, messages written.
pub const COUNTS_NUMBERS: usize = 2;

// What the tracker's call is given of the rows.
#[derive(Clone, Copy)]
pub struct Opening {
    pub settings: Settings,
    pub sites: Sites,
    pub coordinator: CoordinatorRecord,
}

// The records of the rows, which are only read.
fn open_rows(
    settings: &[u32; SETTINGS_NUMBERS],
    sites: &[u64; SITES_NUMBERS],
    coordinator: &[u64; COORDINATOR_NUMBERS],
) -> Opening
    ensures { OpenRowsSays settings.now (lent sites.now sites.now)
        (lent coordinator.now coordinator.now) result }
{
    Opening {
        settings: settings_from(settings),
        sites: sites_from(sites),
        coordinator: coordinator_from(coordinator),
    }
}

// The counts always; the records where an arrival was accepted. With none accepted each row stays,
// one that is no record too.
fn close_rows(
    done: BatchAnswer,
    sites: &mut [u64; SITES_NUMBERS],
    coordinator: &mut [u64; COORDINATOR_NUMBERS],
    counts: &mut [u64; COUNTS_NUMBERS],
) -> u32
    ensures { CloseRowsSays (batch_outcome done) (lent sites.old sites.new)
        (lent coordinator.old coordinator.new) (lent counts.old counts.new) result }
{
    *counts = [done.accepted, done.written];
    if 0 < done.accepted {
        *sites = sites_row(done.sites);
        *coordinator = coordinator_row(done.coordinator);
    }
    match done.refusal {
        Some(refusal) => refusal.number(),
        None => NO_REFUSAL,
    }
}

// `tracker::run_batch`, with the records made from their rows before it and written back after it.
pub fn tracker_run(
    settings: &[u32; SETTINGS_NUMBERS],
    decks: &mut [u64; SITES_NUMBERS],
    desk: &mut [u64; COORDINATOR_NUMBERS],
    draws: &[Arrival],
    deck_memory: &mut [Word],
    desk_memory: &mut [u64],
    log: &mut [u64],
    counts: &mut [u64; COUNTS_NUMBERS],
) -> u32
    ensures { RunExported (lent settings.now settings.now) (lent decks.old decks.new)
        (lent desk.old desk.new) draws.now (lent deck_memory.old deck_memory.new)
        (lent desk_memory.old desk_memory.new) (lent log.old log.new) (lent counts.old counts.new)
        result }
{
    let opening = open_rows(settings, decks, desk);
    let done = tracker::run_batch(
        opening.settings,
        opening.sites,
        opening.coordinator,
        draws,
        deck_memory,
        desk_memory,
        log,
    );
    close_rows(done, decks, desk, counts)
}
