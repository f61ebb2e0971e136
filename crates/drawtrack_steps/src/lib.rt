// The steps of a session of the program `drawtrack`: a refusal, the draw of a line of the worklist,
// and the results at its end. The functions are internal: crate `drawtrack_session`, which reads
// the lines and says which step comes, calls them.

#![tactic(auto)]

ghost use Rattle.std.specs.Prelude.{◌≡◌, [], ◌*◌, ◌≤◌, length};
ghost use Rattle.model.specs.Messages.{message_width};
ghost use Rattle.model.specs.Refusals.{number_of};
ghost use Rattle.worklist_reader.specs.Walk.{step_to};
ghost use Rattle.drawtrack_steps.specs.Output.{PutMessagesSays};
ghost use Rattle.drawtrack_steps.specs.Outcome.{buffers, ended, RefuseSays};
ghost use Rattle.drawtrack_steps.specs.Steps.{DrawSays, FinishSays};

use model::{CoordinatorRecord, MESSAGE_WIDTH, NO_REFUSAL, Refusal, Settings, Sites, Word};
use worklist_reader::NextLine;

// Where a session stands: whether it goes on, why it was refused or 0, the settings, the records of
// the network, the place of its reader in the input and the number of the line there.
#[derive(Clone, Copy)]
pub struct Session {
    pub going: bool,
    pub refusal: u32,
    pub settings: Settings,
    pub sites: Sites,
    pub coordinator: CoordinatorRecord,
    pub at: usize,
    pub line: usize,
}

// A session after a call, and how many bytes of the output the call wrote.
#[derive(Clone, Copy)]
pub struct Moved {
    pub session: Session,
    pub written: usize,
}

// Writes the lines of a log's first messages, each where it fits.
fn put_messages(log: &[u64], count: usize, out: &mut [u8]) -> usize
    requires { message_width * count ≤ length log.now }
    ensures { PutMessagesSays log.now count out.old out.new
        result }
{
    let mut place = 0;
    for done in 0..count {
        let i = MESSAGE_WIDTH * done;
        place = output_lines::write_record(log[i], log[i + 1], log[i + 2], log[i + 3], out, place);
    }
    place
}

// A session that has ended, by a refusal or by 0, after so many bytes.
fn stop(session: Session, refusal: u32, written: usize) -> Moved
    ensures { result ≡ ended session refusal written }
{
    Moved {
        session: Session {
            going: false,
            refusal,
            ..session
        },
        written,
    }
}

// A refusal ends the session with its line.
pub fn refuse(session: Session, refusal: Refusal, out: &mut [u8]) -> Moved
    ensures { RefuseSays session (number_of refusal) out.old out.new result }
{
    let number = refusal.number();
    let written = output_transcript::write_refused(number, out, 0);
    stop(session, number, written)
}

// Takes the draw of a line: its messages, or why it is refused.
pub fn take_draw(
    session: Session,
    next: NextLine,
    site_memory: &mut [Word],
    coordinator_memory: &mut [u64],
    log: &mut [u64],
    out: &mut [u8],
) -> Moved
    ensures { DrawSays session (step_to next) (buffers site_memory.old
        coordinator_memory.old log.old [] out.old)
        (buffers site_memory.new coordinator_memory.new log.new []
        out.new) result }
{
    let answer = tracker::run_one(
        session.settings,
        session.sites,
        session.coordinator,
        next.arrival,
        site_memory,
        coordinator_memory,
        log,
    );
    if let Some(refusal) = answer.refusal {
        return refuse(session, refusal, out);
    }
    let written = put_messages(log, answer.written as usize, out);
    Moved {
        session: Session {
            going: true,
            refusal: NO_REFUSAL,
            sites: answer.sites,
            coordinator: answer.coordinator,
            at: next.at,
            line: next.line,
            ..session
        },
        written,
    }
}

// Writes the results and ends: the list, the class and the sum of the counts of messages, or why
// there is no list. Where there is one, the class is read.
pub fn finish(session: Session, memory: &[u64], list: &mut [u32], out: &mut [u8]) -> Moved
    ensures { FinishSays session memory.now list.old out.old
        list.new out.new result }
{
    let settings = session.settings;
    let coordinator = session.coordinator;
    let count = match coordinator_list::list_heavy_hitters(settings, coordinator, memory, list) {
        Ok(count) => count,
        Err(refusal) => return refuse(session, refusal, out),
    };
    let read = coordinator_reading::read_quantile(settings, coordinator, memory);
    let quantile = read.unwrap_or(None);
    let after_list = output_transcript::write_listed(list, count as usize, out, 0);
    let after_class = output_transcript::write_class(quantile, out, after_list);
    let total = message_counts::total_count(settings, session.sites.messages);
    let written = output_transcript::write_count(total, out, after_class);
    stop(session, NO_REFUSAL, written)
}
