// What waits to be printed.
ghost use Rattle.std.specs.Prelude.{◌≡◌, [], ◌∷◌, ◌++◌, ◌+◌, ◌<◌, ◌≤◌, IfSome, OnOk, length, replicate, take};
ghost use Rattle.console.specs.declared.output.TheConstants.{ROOM};
ghost use Rattle.console.specs.Output.{before_line, behind, longest};

use std::fmt;
use std::fmt::{Display, Write};

// As much as is written out at once.
const ROOM: usize = 65536;

// No line is longer (`longest`).
const LINE: usize = 71;

// The first bytes wait to be written out: a buffer with a length in it, for no memory is taken.
#[derive(Drop)]
pub struct Output<'a, R> {
    rt: &'a R,
    bytes: [u8; ROOM],
    waiting: usize,
    ghost within: { waiting ≤ ROOM },
}

impl<'a, R: Print + Eprint> Output<'a, R> {
    // Nothing waits.
    pub fn new(rt: &'a R) -> Output<'a, R>
        ensures rt { result.rt ≡ rt.entry }
        ensures bytes { result.bytes ≡ replicate ROOM 0 }
        ensures waiting { result.waiting ≡ 0 }
    {
        Output {
            rt,
            bytes: [0; ROOM],
            waiting: 0,
        }
    }

    // What waits goes out, and nothing waits then. Out of line, as `put` is: so the pieces of a line are copied where they are made, and 6 million lines take 0.14 seconds in place of 0.27.
    #[inline(never)]
    pub fn write_out(&mut self)
        ensures rt { self.new.rt ≡ self.old.rt }
        ensures bytes { self.new.bytes ≡ self.old.bytes }
        ensures waiting { self.new.waiting ≡ 0 }
    {
        put(self.rt, &self.bytes[..self.waiting]);
        self.waiting = 0;
    }

    // Room for a line: what waits goes out first where the longest might not fit behind it.
    fn make_room(&mut self)
        ensures room { self.new.waiting + longest ≤ ROOM }
        ensures waits { take self.new.waiting self.new.bytes ≡ before_line ROOM (take self.old.waiting self.old.bytes) }
    {
        if ROOM - self.waiting < LINE {
            self.write_out();
        }
    }

    // The bytes behind what waits.
    fn push(&mut self, bytes: &[u8])
        requires { self.old.waiting + length bytes.now ≤ ROOM }
        ensures waiting { self.new.waiting ≡ self.old.waiting + length bytes.now }
        ensures waits { take self.new.waiting self.new.bytes ≡ take self.old.waiting self.old.bytes ++ bytes.now }
    {
        let end = self.waiting + bytes.len();
        self.bytes[self.waiting..end].copy_from_slice(bytes);
        self.waiting = end;
    }

    // A line, with its line feed. It waits whole behind what waits, so a write that fails loses no half line. It is the program's own, so it may ask how long the line is.
    pub(crate) fn line<D: Display + Drop>(&mut self, line: D) -> fmt::Result
        requires { IfSome (D.output line) (λ text. length text < longest) }
        ensures { OnOk result (IfSome (D.output line) (λ text. take self.new.waiting self.new.bytes ≡ before_line ROOM (take self.old.waiting self.old.bytes) ++ (text ++ (10 ∷ [])))) }
    {
        self.make_room();
        self.writeln(line)
    }
}

// Writing here gives no error: a write that fails is told where it is made.
impl<R: Print + Eprint> fmt::Write for Output<'_, R> {
    ghost write_str_gives = { λ before text after. take after.waiting after.bytes ≡ behind ROOM (take before.waiting before.bytes) text };

    fn write_str(&mut self, text: &str) -> fmt::Result {
        let bytes = text.as_bytes();
        // A text that does not fit behind what waits goes out after it; no line comes to this.
        if ROOM - self.waiting < bytes.len() {
            self.write_out();
            put(self.rt, bytes);
        } else {
            self.push(bytes);
        }
        Ok(())
    }
}

// The run goes on after a write that fails.
#[inline(never)]
fn put(rt: &(impl Print + Eprint), bytes: &[u8]) {
    if rt.write_all(bytes).is_err() {
        let _ = eprintln!(rt; "console: standard output cannot be written");
    }
}
