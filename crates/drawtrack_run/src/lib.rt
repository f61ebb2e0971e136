// The run of the program `drawtrack`: it reads its input to the end, or as many bytes of it as
// matter, writes to its output what the calls of a session write, and says where and why the input
// is refused, or what failed. It and the three below it (`descriptors`, `drawtrack_serving`,
// `drawtrack_response`) serve any reader and writer of `std`. Of those that tell their bytes, it is
// proved that the output gets the transcript of the input. The system's own tell none: that the
// bytes come from the descriptor, that what is handed out arrives, and that a failure is noticed,
// is tested (tests/program).

#![tactic(auto)]

ghost use Rattle.std.specs.Prelude.{IfSome};
ghost use Rattle.descriptors.specs.Descriptors.{read_in, ReadAllSays, ReadAllGives};
ghost use Rattle.drawtrack_run.specs.Running.{RunSays, RunGives};

use descriptors::{ReadFailed, fail, read_all, write_all};
use drawtrack_response::respond;
use drawtrack_start::{
    SESSION_COORDINATOR_NUMBERS, SESSION_INPUT_BYTES, SESSION_LIST_PLACES, SESSION_LOG_NUMBERS,
    SESSION_OUT_BYTES, SESSION_SITE_NUMBERS,
};
use model::Word;
use output_reason::REASON_BYTES;
use std::io;
use std::io::Write;

// Reads the input; where that fails says so to the writer of failures.
fn take_in<R: io::Read, E: Write>(
    input: &mut R,
    failures: &mut E,
    bytes: &mut [u8],
) -> Result<usize, ReadFailed>
    ensures counts { ReadAllSays bytes.new (read_in result) }
    ensures given { ReadAllGives (R.remaining input.old) (R.remaining input.new) bytes.new
        (read_in result) }
{
    let read = read_all(input, bytes);
    if let Err(failed) = read {
        fail(failures, b"drawtrack: input failed", failed.error);
    }
    read
}

// Runs `drawtrack` on an input: the memory for the program's limits, one reading of the input, and
// the response to it. Answers 0 after results, 1 after a refusal, and 2 where reading or writing
// failed, which the last writer is then told.
pub fn drawtrack_run<R: io::Read, W: Write, E: Write>(
    input: &mut R,
    output: &mut W,
    failures: &mut E,
) -> u32
    ensures says { RunSays result }
    ensures gives { IfSome (R.remaining input.old)
        (λ bytes. RunGives bytes (W.contents output.old) (W.contents output.new) result) }
{
    let mut bytes = [0u8; SESSION_INPUT_BYTES];
    let mut site_memory: [Word; SESSION_SITE_NUMBERS] = [0; SESSION_SITE_NUMBERS];
    let mut coordinator_memory = [0u64; SESSION_COORDINATOR_NUMBERS];
    let mut log = [0u64; SESSION_LOG_NUMBERS];
    let mut list = [0u32; SESSION_LIST_PLACES];
    let mut out = [0u8; SESSION_OUT_BYTES];
    let mut reason = [0u8; REASON_BYTES];
    let read = take_in(input, failures, &mut bytes);
    let length = match read {
        Ok(length) => length,
        Err(failed) => failed.length,
    };
    let response = respond(
        output,
        failures,
        read.is_ok(),
        &bytes[..length],
        &mut site_memory,
        &mut coordinator_memory,
        &mut log,
        &mut list,
        &mut out,
        &mut reason,
    );
    let _ = write_all(failures, &reason[..response.said]);
    response.status
}
