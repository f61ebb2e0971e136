// The response of the program `drawtrack` to an input: its status and, of a refusal, the reason.
// `respond` is internal: the program's run (`drawtrack_run`) calls it. Of a writer that tells what
// it holds, what is handed out is proved; that it arrives at the system's own, and that a failure
// is noticed, is tested.

#![tactic(auto)]

ghost use Rattle.drawtrack_steps.specs.Outcome.{buffers};
ghost use Rattle.drawtrack_response.specs.Responding.{RespondAsks, RespondSays, RespondHands};

use drawtrack_serving::serve;
use model::{NO_REFUSAL, Word};
use std::io::Write;

// What the run answers: results, a refusal, or that reading or writing failed.
pub const STATUS_RESULTS: u32 = 0;

pub const STATUS_REFUSED: u32 = 1;

pub const STATUS_FAILED: u32 = 2;

// What the run answers, whether anything failed, and how many bytes of the reason it wrote.
#[derive(Clone, Copy)]
pub struct Response {
    pub failed: bool,
    pub status: u32,
    pub said: usize,
}

// The response to an input, if all of it was read: the session's calls, handed out, and the reason
// of a refusal in the lent bytes. An input that was not read to its end gives no results: nothing
// is handed out, and all that was lent is as it was. Internal.
pub fn respond<W: Write, E: Write>(
    output: &mut W,
    failures: &mut E,
    read: bool,
    input: &[u8],
    site_memory: &mut [Word],
    coordinator_memory: &mut [u64],
    log: &mut [u64],
    list: &mut [u32],
    out: &mut [u8],
    reason: &mut [u8],
) -> Response
    requires { RespondAsks input.now (buffers site_memory.old coordinator_memory.old
        log.old
        list.old out.old) reason.old }
    ensures says { RespondSays read input.now
        (buffers site_memory.old coordinator_memory.old log.old
        list.old out.old) (buffers site_memory.new
        coordinator_memory.new log.new list.new out.new)
        reason.old reason.new result }
    ensures handed { RespondHands read input.now (W.contents output.old) (W.contents output.new)
        result }
{
    if read {
        let ended = serve(
            output,
            failures,
            input,
            site_memory,
            coordinator_memory,
            log,
            list,
            out,
        );
        if ended.taken {
            if ended.refusal == NO_REFUSAL {
                return Response {
                    failed: false,
                    status: STATUS_RESULTS,
                    said: 0,
                };
            }
            return Response {
                failed: false,
                status: STATUS_REFUSED,
                said: output_reason::write_reason(ended.line, ended.refusal, reason),
            };
        }
    }
    Response {
        failed: true,
        status: STATUS_FAILED,
        said: 0,
    }
}
