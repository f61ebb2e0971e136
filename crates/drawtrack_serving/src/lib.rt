// The calls of a session, one after the other, and what they write handed out to a writer: the loop
// of the program's run (`drawtrack_run`). Of a writer that tells what it holds, what is handed out
// is proved; that it arrives at the system's own, and that a failure is noticed, is tested.

#![tactic(auto)]

ghost use Rattle.std.specs.Prelude.{◌≤◌, length, take};
ghost use Rattle.descriptors.specs.Descriptors.{WriteAllGives};
ghost use Rattle.drawtrack_steps.specs.Outcome.{buffers};
ghost use Rattle.drawtrack_turns.specs.Serving.{ServeAsks, ServeSays};
ghost use Rattle.drawtrack_serving.specs.Handing.{HandedOut};

use descriptors::{fail, write_all};
use drawtrack_start::SESSION_INPUT_BYTES;
use drawtrack_turns::{Stopped, stopped_at};
use model::Word;
use std::io::Write;

// Writes the bytes that a call wrote to the output; where that fails says so to the writer of
// failures, and answers false.
fn hand_out<W: Write, E: Write>(
    output: &mut W,
    failures: &mut E,
    written: usize,
    out: &[u8],
) -> bool
    requires { written ≤ length out.now }
    ensures { WriteAllGives (W.contents output.old) (W.contents output.new) (take written out.now)
        result }
{
    if let Err(error) = write_all(output, &out[..written]) {
        fail(failures, b"drawtrack: output failed", error);
        return false;
    }
    true
}

// A call for each line, until the session has ended or a write was not taken; what each wrote is
// handed out. Each line after which it goes on takes six bytes or more, so it ends long before the
// turns do. The calls make a course of the session, and their bytes, one after the other, are the
// transcript of the input; where a write was not taken, its front. Internal.
pub fn serve<W: Write, E: Write>(
    output: &mut W,
    failures: &mut E,
    input: &[u8],
    site_memory: &mut [Word],
    coordinator_memory: &mut [u64],
    log: &mut [u64],
    list: &mut [u32],
    out: &mut [u8],
) -> Stopped
    requires { ServeAsks input.now (buffers site_memory.old coordinator_memory.old
        log.old
        list.old out.old) }
    ensures says { ServeSays input.now
        (buffers site_memory.old coordinator_memory.old log.old
        list.old out.old) (buffers site_memory.new
        coordinator_memory.new log.new list.new out.new)
        result }
    ensures handed { HandedOut input.now (W.contents output.old) (W.contents output.new) result }
{
    let first = drawtrack_session::begin(input, site_memory, coordinator_memory, out);
    let mut taken = hand_out(output, failures, first.written, out);
    let mut session = first.session;
    let mut turns: usize = 0;
    while taken && session.going && turns < SESSION_INPUT_BYTES {
        let moved = drawtrack_session::advance(
            session,
            input,
            site_memory,
            coordinator_memory,
            log,
            list,
            out,
        );
        taken = hand_out(output, failures, moved.written, out);
        session = moved.session;
        turns += 1;
    }
    stopped_at(taken, session, turns)
}
