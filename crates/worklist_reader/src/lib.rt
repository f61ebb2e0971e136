// Reading the program's input: the settings line, and then a worklist line by line.

#![tactic(auto)]

ghost use Rattle.std.specs.Prelude.{◌≡◌};
ghost use Rattle.worklist_reader.specs.Promises.{SettingsSays, settings_outcome};
ghost use Rattle.worklist_reader.specs.Reading.{OpenReaderSays, NextSays};
ghost use Rattle.worklist_reader.specs.Walk.{step_at, step_in, step_of_line};

use model::{Arrival, LINE_FEED, Refusal, SEMICOLON, Settings};
use worklist::read_three;

// The settings line: its settings, and how many bytes it takes.
#[derive(Clone, Copy)]
pub struct SettingsRead {
    pub settings: Settings,
    pub used: usize,
}

// A line of a worklist that was read: its arrival, and where a walk through the worklist stands
// after it: a place in the bytes, and the number of the line there, counted from 0.
#[derive(Clone, Copy)]
pub struct NextLine {
    pub arrival: Arrival,
    pub at: usize,
    pub line: usize,
}

// A reader of a worklist: its bytes, the place where it stands, and the number of the line there
// ("The reader walks the file's bytes line by line").
#[derive(Clone, Copy)]
pub struct Reader<'a> {
    pub bytes: &'a [u8],
    pub at: usize,
    pub line: usize,
}

// The settings line at the front of some bytes, or refusal 13: its first three fields, the third
// ended by a semicolon, and then its last three.
pub fn read_settings(bytes: &[u8]) -> Result<SettingsRead, Refusal>
    ensures { SettingsSays bytes.now (settings_outcome result) }
{
    let first = read_three(bytes, 0, SEMICOLON).ok_or(Refusal::MalformedLine)?;
    let second = read_three(bytes, first.next, LINE_FEED).ok_or(Refusal::MalformedLine)?;
    Ok(SettingsRead {
        settings: Settings {
            sites: first.first,
            epsilon: first.second,
            phi: first.third,
            rank: second.first,
            capacity: second.second,
            universe: second.third,
        },
        used: second.next,
    })
}

// A reader before the first line of a worklist.
pub fn open<'a>(bytes: &'a [u8]) -> Reader<'a>
    ensures { OpenReaderSays bytes.entry result }
{
    Reader {
        bytes,
        at: 0,
        line: 0,
    }
}

impl<'a> Reader<'a> {
    // The next line: an arrival, behind which the reader then stands; or none at the end, or
    // refusal 13, where the reader stays, and its `line` is the line's number. The last number is
    // its own next; a file has fewer lines, for each takes six bytes or more.
    pub fn next(&mut self) -> Result<Option<Arrival>, Refusal>
        ensures { NextSays self.old self.new (step_in result self.new.at self.new.line) }
    {
        if self.bytes.len() <= self.at {
            return Ok(None);
        }
        let Some(read) = read_three(self.bytes, self.at, LINE_FEED) else {
            return Err(Refusal::MalformedLine);
        };
        self.at = read.next;
        self.line = self.line.saturating_add(1);
        Ok(Some(Arrival {
            site: read.first,
            item: read.second,
            value: read.third,
        }))
    }
}

// The line at a place of a worklist, by a reader that stands there: for a caller that keeps the
// place and the line's number between its calls, and can keep no reference. At the end, and before
// a malformed line, the walk stays where it is: `line` is that line's number.
pub fn read_line(bytes: &[u8], at: usize, line: usize) -> Result<Option<NextLine>, Refusal>
    ensures { step_of_line at line result ≡ step_at bytes.now at line }
{
    let mut reader = Reader { bytes, at, line };
    match reader.next() {
        Ok(Some(arrival)) => Ok(Some(NextLine {
            arrival,
            at: reader.at,
            line: reader.line,
        })),
        Ok(None) => Ok(None),
        Err(refusal) => Err(refusal),
    }
}
