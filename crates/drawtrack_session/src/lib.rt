// A session of the program `drawtrack`: all of it but reading and writing descriptors. `begin`
// reads the settings line and starts the network, unless crate `drawtrack_start` says why not; each
// `advance` then takes one line of the worklist and writes what it brings, by a step of crate
// `drawtrack_steps`: the messages of its draw, the line of a refusal, or at the end the results.

#![tactic(auto)]

ghost use Rattle.std.specs.Prelude.{◌≡◌, []};
ghost use Rattle.model.specs.Lines.{settings_of};
ghost use Rattle.drawtrack_steps.specs.Outcome.{buffers};
ghost use Rattle.drawtrack_session.specs.Begin.{fresh_session, BeginSays};
ghost use Rattle.drawtrack_session.specs.Advance.{AdvanceSays};

use drawtrack_start::test_start;
use drawtrack_steps::{Moved, Session};
use model::{
    CoordinatorRecord, NO_REFUSAL, Phase, SITE_RECORDS, Settings, SiteRecord, Sites, Word,
};

// A session before the first line of the worklist, with fresh records.
fn fresh_session(settings: Settings, at: usize) -> Session
    ensures { result ≡ fresh_session settings at }
{
    let site = SiteRecord {
        arrivals: 0,
        pending: 0,
        threshold: 1,
        used: 0,
        dropped: 0,
    };
    Session {
        going: true,
        refusal: NO_REFUSAL,
        settings,
        sites: Sites {
            records: [site; SITE_RECORDS],
            messages: [0; SITE_RECORDS],
        },
        coordinator: CoordinatorRecord {
            total: 0,
            base: 0,
            threshold: 1,
            signals: 0,
            quantile: 0,
            phase: Phase::Idle,
        },
        at,
        line: 0,
    }
}

// A session whose settings line is malformed: it has no settings, and stands at the first byte.
fn unread_session() -> Session
    ensures { result ≡ fresh_session (settings_of []) 0 }
{
    let settings = Settings {
        sites: 0,
        epsilon: 0,
        phi: 0,
        rank: 0,
        capacity: 0,
        universe: 0,
    };
    fresh_session(settings, 0)
}

// Reads the settings line and starts the network fresh, or writes why not. The start calls clear
// the memory; the records that they answer are the fresh session's.
pub fn begin(
    input: &[u8],
    site_memory: &mut [Word],
    coordinator_memory: &mut [u64],
    out: &mut [u8],
) -> Moved
    ensures { BeginSays input.now (buffers site_memory.old
        coordinator_memory.old [] [] out.old)
        (buffers site_memory.new coordinator_memory.new [] []
        out.new) result }
{
    let read = match worklist_reader::read_settings(input) {
        Ok(read) => read,
        Err(refusal) => return drawtrack_steps::refuse(unread_session(), refusal, out),
    };
    let session = fresh_session(read.settings, read.used);
    let tested = test_start(
        read.settings,
        input.len() - read.used,
        site_memory.len(),
        coordinator_memory.len(),
    );
    if let Err(refusal) = tested {
        return drawtrack_steps::refuse(session, refusal, out);
    }
    let _ = site_start::start_sites(read.settings, site_memory);
    let _ = coordinator::start_coordinator(read.settings, coordinator_memory);
    Moved {
        session,
        written: 0,
    }
}

// Reads the next line of the worklist and takes it. The reader stands at the place and line that
// the session carries from call to call: a session holds no reference, so it cannot hold the
// reader.
pub fn advance(
    session: Session,
    input: &[u8],
    site_memory: &mut [Word],
    coordinator_memory: &mut [u64],
    log: &mut [u64],
    list: &mut [u32],
    out: &mut [u8],
) -> Moved
    ensures { AdvanceSays input.now session
        (buffers site_memory.old coordinator_memory.old log.old
        list.old out.old) (buffers site_memory.new
        coordinator_memory.new log.new list.new out.new)
        result }
{
    match worklist_reader::read_line(input, session.at, session.line) {
        Ok(Some(next)) => drawtrack_steps::take_draw(
            session,
            next,
            site_memory,
            coordinator_memory,
            log,
            out,
        ),
        Ok(None) => drawtrack_steps::finish(session, coordinator_memory, list, out),
        Err(refusal) => drawtrack_steps::refuse(session, refusal, out),
    }
}
