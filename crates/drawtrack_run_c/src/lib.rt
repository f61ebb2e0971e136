// The run of the program `drawtrack` for C, which reads and writes the descriptors itself: an
// export is handed no reader and no writer. The input and all that is handed out lie in lent
// memory; library/drawtrack/run.c reads the one and writes the other.

#![tactic(auto)]

ghost use Rattle.std.specs.Prelude.{Some};
ghost use Rattle.drawtrack_run.specs.Running.{RunSays};
ghost use Rattle.drawtrack_run_c.specs.Memory.{pieces_held, MemorySays};

use drawtrack_response::STATUS_FAILED;
use drawtrack_run::drawtrack_run;
use std::io;
use std::io::Write;

// What is handed out, piece after piece, in lent memory; and where each piece ends. A piece that
// does not fit is not taken.
#[derive(Drop)]
pub struct Pieces<'a> {
    bytes: &'a mut [u8],
    ends: &'a mut [usize],
    length: usize,
    count: usize,
}

impl Write for Pieces<'_> {
    ghost contents = { λ pieces. Some (pieces_held pieces) };

    fn write(&mut self, piece: &[u8]) -> io::Result<usize> {
        let at = self.length;
        if at > self.bytes.len() {
            return Ok(0);
        }
        if piece.len() > self.bytes.len() - at {
            return Ok(0);
        }
        if self.count >= self.ends.len() {
            return Ok(0);
        }
        let end = at + piece.len();
        self.bytes[at..end].copy_from_slice(piece);
        self.ends[self.count] = end;
        self.length = end;
        self.count += 1;
        Ok(piece.len())
    }

    fn flush(&mut self) -> io::Result<()> {
        Ok(())
    }
}

// How many bytes were handed out, in how many pieces, and how many bytes are for standard error.
#[repr(C)]
#[derive(Clone, Copy)]
pub struct Handed {
    pub length: usize,
    pub count: usize,
    pub said: usize,
}

// Runs `drawtrack` on an input in memory. What it hands out stands in the first of the lent bytes,
// with the end of each piece beside it, and what it says in the first bytes of `words`. Answers as
// the run does: 0 after results, 1 after a refusal; 2 where the lent memory was too short. The
// pieces are held in `held` first: a writer that is lent on keeps its bytes, but no contract says
// that it keeps the place where they lie.
#[unsafe(no_mangle)]
pub extern "C" fn drawtrack_run_in_memory(
    input: &[u8],
    held: &mut [u8],
    bytes: &mut [u8],
    ends: &mut [usize],
    words: &mut [u8],
    handed: &mut Handed,
) -> u32
    ensures says { RunSays result }
    ensures gives { MemorySays input.now bytes.new handed.new.length result }
{
    let mut rest = input;
    let mut pieces = Pieces {
        bytes: held,
        ends,
        length: 0,
        count: 0,
    };
    let mut failures = io::Cursor::new(words);
    let status = drawtrack_run(&mut rest, &mut pieces, &mut failures);
    let length = pieces.length;
    handed.length = length;
    handed.count = pieces.count;
    handed.said = failures.position() as usize;
    if length > pieces.bytes.len() {
        return STATUS_FAILED;
    }
    if length > bytes.len() {
        return STATUS_FAILED;
    }
    bytes[..length].copy_from_slice(&pieces.bytes[..length]);
    status
}

#[cfg(test)]
mod tests {
    use super::*;
    use std::test::Fail;

    // The instance that the program's own example has: a piece of messages, and one of results.
    #[test]
    fn hands_out_results_in_two_pieces(rt: HostRuntime) -> Result<(), Fail> {
        let mut held = [0u8; 128];
        let mut bytes = [0u8; 128];
        let mut ends = [0usize; 4];
        let mut words = [0u8; 128];
        let mut handed = Handed {
            length: 0,
            count: 0,
            said: 0,
        };
        let status = drawtrack_run_in_memory(
            b"1;1000;1000;500;6;10\n0;7;3\n",
            &mut held,
            &mut bytes,
            &mut ends,
            &mut words,
            &mut handed,
        );
        assert_eq!(rt; status, 0);
        assert_eq!(rt; handed.length, 68);
        assert_eq!(rt; handed.count, 2);
        assert_eq!(rt; handed.said, 0);
        assert_eq!(rt; ends, [40, 68, 0, 0]);
        let transcript =
            b"1 0 7 1\n2 0 1 3\n3 0 0 0\n4 0 0 0\n7 0 1 1\nlisted 7\nclass 3\nmessages 5\n";
        assert!(rt; bytes.starts_with(transcript));
        Ok(())
    }

    // A refusal, its line and its reason; and no room for the line.
    #[test]
    fn says_why_it_refuses(rt: HostRuntime) -> Result<(), Fail> {
        let mut held = [0u8; 16];
        let mut bytes = [0u8; 16];
        let mut ends = [0usize; 1];
        let mut words = [0u8; 64];
        let mut handed = Handed {
            length: 0,
            count: 0,
            said: 0,
        };
        let status = drawtrack_run_in_memory(
            b"x\n",
            &mut held,
            &mut bytes,
            &mut ends,
            &mut words,
            &mut handed,
        );
        assert_eq!(rt; status, 1);
        assert_eq!(rt; handed.length, 11);
        assert_eq!(rt; handed.count, 1);
        assert!(rt; bytes.starts_with(b"refused 13\n"));
        assert_eq!(rt; handed.said, 53);
        let reason = b"drawtrack: settings line: refused 13: malformed line\n";
        assert!(rt; words.starts_with(reason));
        let mut short = [0u8; 10];
        let failed = drawtrack_run_in_memory(
            b"x\n",
            &mut short,
            &mut bytes,
            &mut ends,
            &mut words,
            &mut handed,
        );
        assert_eq!(rt; failed, 2);
        assert_eq!(rt; handed.length, 0);
        Ok(())
    }
}
