// Document 02, item 1: the text lines on standard input become a file of messages on standard output. It stops at the first line that is refused.
#![tactic(auto)]

ghost use Rattle.std.specs.Prelude.{◌*◌, ◌≤◌, ◌≢◌, length};
ghost use Rattle.rules.specs.Replies.{number};

use rules::Refusal;
use std::fmt;
use std::io::Read;
use text::{Begun, Taken};

// A byte ends at most one line, and a line gives at most one message. So a piece of the input always has room for its messages, and 14 never shows.
const PIECE: usize = 16384;

const ROOM: usize = PIECE * message::SIZE;

// A line that is refused, counted from 0.
#[derive(Clone, Copy)]
struct RefusedLine {
    place: u64,
    refusal: Refusal,
    ghost never_for_room: { number refusal ≢ 14 },
}

// Why it stops before the end of the input.
#[derive(Clone, Copy)]
enum Stop {
    Unreadable,
    Unwritable,
    Refused(RefusedLine),
}

impl fmt::Display for Stop {
    fn fmt<W: fmt::Write>(&self, f: &mut fmt::Formatter<W>) -> fmt::Result {
        match *self {
            Stop::Unreadable => write!(f, "from_text: standard input cannot be read"),
            Stop::Unwritable => write!(f, "from_text: standard output cannot be written"),
            Stop::Refused(RefusedLine { place, refusal }) => write!(f, "refused {place} {refusal}"),
        }
    }
}

// The line that is left begun, and how many lines were written.
#[derive(Clone, Copy)]
struct Progress {
    line: Begun,
    place: u64,
}

fn main(rt: HostRuntime) {
    let mut input = [0u8; PIECE];
    let mut output = [0u8; ROOM];
    if let Err(stop) = run(&rt, &mut rt.stdin(), &mut input, &mut output) {
        let _ = eprintln!(rt; "{stop}");
    }
}

// To the end of the input. The reads are counted up to a number that no run reaches, for a loop has to end.
fn run(
    rt: &impl Print,
    stdin: &mut impl Read,
    input: &mut [u8],
    output: &mut [u8],
) -> Result<(), Stop>
    requires { 20 * length input.old ≤ length output.old }
{
    let mut progress = Progress {
        line: text::fresh(),
        place: 0,
    };
    for _ in 0..u64::MAX {
        let end = stdin.read(input).map_err(|_| Stop::Unreadable)?;
        if end == 0 {
            return progress.end();
        }
        progress = progress.take(rt, &input[..end], output)?;
    }
    Ok(())
}

impl Progress {
    // Writes out the messages of a piece; then a line of it is refused, if one is.
    #[tactic(auto, using(text::proofs::Room::roomy, std::proofs::lemmas::Grind::common_steps))]
    fn take(self, rt: &impl Print, piece: &[u8], output: &mut [u8]) -> Result<Progress, Stop>
        requires { 20 * length piece.now ≤ length output.old }
    {
        let Taken { line, written } = text::take(self.line, piece, output, 0);
        // No input has 2 to the 64 lines.
        let place = self.place.wrapping_add(written.messages as u64);
        let progress = Progress { line, place };
        rt.write_all(&output[..written.place])
            .map_err(|_| Stop::Unwritable)?;
        written.answer.map_err(|refusal| progress.refused(refusal))?;
        Ok(progress)
    }

    // The end of the input: a line that was begun is refused.
    #[tactic(auto, unfolding(text::specs::Machine::end_call))]
    fn end(self) -> Result<(), Stop> {
        text::end(self.line).map_err(|refusal| self.refused(refusal))
    }

    // The line behind those that were written is refused.
    fn refused(self, refusal: Refusal) -> Stop
        requires { number refusal ≢ 14 }
    {
        Stop::Refused(RefusedLine {
            place: self.place,
            refusal,
        })
    }
}
