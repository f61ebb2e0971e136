// The calls of a delivery, one by one: kind 7 is asked for, or the message that waits first is
// handed to the coordinator or to its site. What the call hands out waits last. The functions are
// internal: what they require follows from what `deliver` requires and from `call_due`.
ghost use Rattle.std.specs.Prelude.{◌≡◌, true, false, List, ℕ, ◌<◌};
ghost use Rattle.bench_memory.specs.Promises.{SitesFit};
ghost use Rattle.single_steps.specs.Progress.{carried_limit, progress_outcome, sent};
ghost use Rattle.single_steps.specs.Steps.{AskAsks, HandByCallAsks, DueAsks, CallStepSays};

use crate::Progress;
use model::{Message, Refusal, Settings, Word};
use tracker_delivery::{record_of, with_record};
use tracker_queue::{join, take_head};

// The message that a call handed out, if it handed out one: it waits last, and is counted.
fn send(progress: Progress, count: u32, message: Message) -> Progress
    requires { progress.carried < carried_limit }
    ensures { progress_outcome result ≡ sent count (progress_outcome progress) message }
{
    if count == 0 {
        return progress;
    }
    Progress {
        waiting: join(progress.waiting, message),
        carried: progress.carried + 1,
        ..progress
    }
}

// The next kind 7 is asked for. Where a call is refused, why is kept, and all else is as it was.
fn ask(settings: Settings, progress: Progress, coordinator_memory: &[u64]) -> Progress
    requires { AskAsks (progress_outcome progress) }
    ensures { (site_memory : List ℕ) → CallStepSays settings site_memory
        coordinator_memory.now coordinator_memory.now (progress_outcome progress)
        (progress_outcome result) }
{
    match coordinator::next_announcement(settings, progress.coordinator, coordinator_memory) {
        Ok(announced) => {
            let next = Progress {
                coordinator: announced.coordinator,
                ..progress
            };
            send(next, announced.count, announced.out)
        }
        Err(refusal) => Progress {
            refusal: Some(refusal),
            ..progress
        },
    }
}

// The message that waits first is handed to the coordinator.
fn hand_to_coordinator(
    settings: Settings,
    progress: Progress,
    coordinator_memory: &mut [u64],
) -> Progress
    requires { HandByCallAsks true (progress_outcome progress) }
    ensures { (site_memory : List ℕ) → CallStepSays settings site_memory
        coordinator_memory.old coordinator_memory.new (progress_outcome progress)
        (progress_outcome result) }
{
    let message = progress.waiting.first;
    match coordinator::receive(settings, progress.coordinator, message, coordinator_memory) {
        Ok(answered) => {
            let next = Progress {
                coordinator: answered.coordinator,
                waiting: take_head(progress.waiting),
                ..progress
            };
            send(next, answered.count, answered.out)
        }
        Err(refusal) => Progress {
            refusal: Some(refusal),
            ..progress
        },
    }
}

// The message that waits first is handed to the site that it names, with that site's record and
// the memory from the start of its part on.
fn hand_to_site(settings: Settings, progress: Progress, site_memory: &[Word]) -> Progress
    requires { SitesFit settings site_memory.now
        × HandByCallAsks false (progress_outcome progress) }
    ensures { (coordinator_memory : List ℕ) → CallStepSays settings
        site_memory.now coordinator_memory coordinator_memory (progress_outcome progress)
        (progress_outcome result) }
{
    let message = progress.waiting.first;
    if settings.sites <= message.site {
        return Progress {
            refusal: Some(Refusal::UnknownSite),
            ..progress
        };
    }
    let which = message.site as usize;
    let start = which * site_memory::site_words(settings);
    let numbers = record_of(progress.sites, which);
    match site::receive(
        settings,
        numbers,
        message.site,
        message,
        &site_memory[start..],
    ) {
        Ok(replied) => {
            let next = Progress {
                sites: with_record(progress.sites, which, replied.site),
                waiting: take_head(progress.waiting),
                ..progress
            };
            send(next, replied.count, replied.reply)
        }
        Err(refusal) => Progress {
            refusal: Some(refusal),
            ..progress
        },
    }
}

// The call that is due: while messages wait, the first of them; else the next kind 7.
pub fn take_step(
    settings: Settings,
    progress: Progress,
    site_memory: &[Word],
    coordinator_memory: &mut [u64],
) -> Progress
    requires { SitesFit settings site_memory.now × DueAsks (progress_outcome progress) }
    ensures { CallStepSays settings site_memory.now
        coordinator_memory.old coordinator_memory.new (progress_outcome progress)
        (progress_outcome result) }
{
    if progress.waiting.count == 0 {
        return ask(settings, progress, coordinator_memory);
    }
    if messages::to_coordinator(progress.waiting.first) {
        return hand_to_coordinator(settings, progress, coordinator_memory);
    }
    hand_to_site(settings, progress, site_memory)
}
