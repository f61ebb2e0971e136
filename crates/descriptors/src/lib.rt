// Reading and writing to the end. A call that a signal interrupted is made again; any other failure
// ends it. One of the four libraries that stand on what the system reads and writes, for the
// program's run (`drawtrack_run`), over any reader and writer of `std`: of the system's own no
// contract speaks of a byte, only of how many were moved.

#![tactic(auto)]

ghost use Rattle.std.specs.Prelude.{◌≡◌, true, false, ◌≤◌, length, is_ok};
ghost use Rattle.descriptors.specs.Descriptors.{moved_by, is_whole, ReadSomeSays, ReadSomeGives, WriteSomeSays, WriteSomeGives, read_in, ReadAllSays, ReadAllGives, WriteAllSays, WriteAllGives, FailGives};

use std::io;
use std::io::Write;

// More bytes than the message of any error of the system takes.
const MESSAGE_BYTES: usize = 320;

// What one call came to: nothing is missing after it, or another is to follow, each with how many
// bytes the call moved; or why it failed.
#[derive(Clone, Copy)]
pub enum Transfer {
    Whole(usize),
    Part(usize),
    Failed(io::Error),
}

// An input that was not read whole: how many bytes were read, and why not all of them.
#[derive(Clone, Copy)]
pub struct ReadFailed {
    pub length: usize,
    pub error: io::Error,
}

// The error of no failure: the system's number 0.
fn no_error() -> io::Error {
    io::Error::from_raw_os_error(0)
}

// A call that failed: it is made again if a signal interrupted it.
fn moved_nothing(error: io::Error) -> Transfer
    ensures none { moved_by result ≡ 0 }
    ensures missing { is_whole result ≡ false }
{
    if error.kind() == io::ErrorKind::Interrupted {
        return Transfer::Part(0);
    }
    Transfer::Failed(error)
}

// A call that moved so many of the bytes that were left.
fn moved_some(moved: usize, left: usize) -> Transfer
    ensures count { moved_by result ≡ moved }
    ensures whole { is_whole result ≡ true → moved ≡ left }
{
    if moved == left {
        return Transfer::Whole(moved);
    }
    Transfer::Part(moved)
}

// One read, into the bytes from a place on. An answer of 0 is the end of the input.
fn read_some<R: io::Read>(from: &mut R, bytes: &mut [u8], at: usize) -> Transfer
    requires { at ≤ length bytes.old }
    ensures counts { ReadSomeSays at bytes.old bytes.new result }
    ensures given { ReadSomeGives (R.remaining from.old) (R.remaining from.new) at bytes.new
        result }
{
    match from.read(&mut bytes[at..]) {
        Ok(0) => Transfer::Whole(0),
        Ok(moved) => moved_some(moved, bytes.len() - at),
        Err(error) => moved_nothing(error),
    }
}

// Reads an input into the lent bytes, until it ends or these are full, and answers how many bytes
// were read, also where it fails. A loop that is proved has to end, so the turns are counted to a
// number that no run uses up.
pub fn read_all<R: io::Read>(from: &mut R, bytes: &mut [u8]) -> Result<usize, ReadFailed>
    ensures counts { ReadAllSays bytes.new (read_in result) }
    ensures given { ReadAllGives (R.remaining from.old) (R.remaining from.new) bytes.new
        (read_in result) }
{
    let mut length: usize = 0;
    for _ in 0..u64::MAX {
        match read_some(from, bytes, length) {
            Transfer::Whole(moved) => return Ok(length + moved),
            Transfer::Part(moved) => length += moved,
            Transfer::Failed(error) => return Err(ReadFailed { length, error }),
        }
    }
    Err(ReadFailed {
        length,
        error: no_error(),
    })
}

// One write, of the bytes from a place on. An answer of 0 is a failure: nothing was taken.
fn write_some<W: io::Write>(to: &mut W, bytes: &[u8], at: usize) -> Transfer
    requires { at ≤ length bytes.now }
    ensures counts { WriteSomeSays at bytes.now result }
    ensures taken { WriteSomeGives (W.contents to.old) (W.contents to.new) at bytes.now result }
{
    match to.write(&bytes[at..]) {
        Ok(0) => Transfer::Failed(no_error()),
        Ok(moved) => moved_some(moved, bytes.len() - at),
        Err(error) => moved_nothing(error),
    }
}

// Writes the bytes, and answers why not all of them were taken, if they were not. For none no call
// is made.
pub fn write_all<W: io::Write>(to: &mut W, bytes: &[u8]) -> io::Result<()>
    ensures counts { WriteAllSays bytes.now (is_ok result) }
    ensures taken { WriteAllGives (W.contents to.old) (W.contents to.new) bytes.now
        (is_ok result) }
{
    if bytes.is_empty() {
        return Ok(());
    }
    let mut done: usize = 0;
    for _ in 0..u64::MAX {
        match write_some(to, bytes, done) {
            Transfer::Whole(_) => return Ok(()),
            Transfer::Part(moved) => done += moved,
            Transfer::Failed(error) => return Err(error),
        }
    }
    Err(no_error())
}

// How many bytes of a message there are, before the zeros.
fn message_length(message: &[u8]) -> usize
    ensures { result ≤ length message.now }
{
    message
        .iter()
        .position(|byte| *byte == 0)
        .unwrap_or(message.len())
}

// How many bytes of the message of an error of the system are words: all before the last bracket
// and the space in front of it, where the error's number follows.
fn words_length(message: &[u8]) -> usize
    ensures { result ≤ length message.now }
{
    match message.iter().rposition(|byte| *byte == b'(') {
        Some(at) => at.saturating_sub(1),
        None => message_length(message),
    }
}

// Writes a line that says what failed, as the caller names it, and the system's words for why.
// Where that fails too, nothing more can be said.
pub fn fail<W: io::Write>(to: &mut W, what: &[u8], error: io::Error)
    ensures { FailGives (W.contents to.old) (W.contents to.new) what.now }
{
    let mut message = io::Cursor::new([0u8; MESSAGE_BYTES]);
    let _ = write!(message, "{error}");
    let text = message.get_ref();
    let words = if error.raw_os_error().is_some() {
        words_length(text)
    } else {
        message_length(text)
    };
    let _ = write_all(to, what);
    let _ = write_all(to, b": ");
    let _ = write_all(to, &text[..words]);
    let _ = write_all(to, b"\n");
}
