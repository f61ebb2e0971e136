// The turns of the loop over a session's calls: what is promised of them, and at which line of the
// input they stopped. `stopped_at` is internal: the loop itself, crate `drawtrack_serving`, calls
// it.

#![tactic(auto)]

ghost use Rattle.std.specs.Prelude.{◌≡◌, ◌≤◌};
ghost use Rattle.drawtrack_course.specs.Rooms.{input_room};
ghost use Rattle.drawtrack_turns.specs.Serving.{stopped_of};

use drawtrack_steps::Session;

// What came of the calls of a session: whether every write was taken, the refusal or 0, and the
// line of the input at which it ended.
#[derive(Clone, Copy)]
pub struct Stopped {
    pub taken: bool,
    pub refusal: u32,
    pub line: usize,
}

// What came of a session that stopped after so many calls of `advance`. Internal.
pub fn stopped_at(taken: bool, session: Session, turns: usize) -> Stopped
    requires { turns ≤ input_room }
    ensures { result ≡ stopped_of taken session turns }
{
    let line = if turns == 0 {
        drawtrack_start::start_line(session.settings, session.refusal)
    } else {
        turns + 1
    };
    Stopped {
        taken,
        refusal: session.refusal,
        line,
    }
}
