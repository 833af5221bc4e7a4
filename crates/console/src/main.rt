// Document 01, "The console program": messages from standard input go to a desk, and what it answers is printed.
#![tactic(auto)]

ghost use Rattle.std.specs.Prelude.{◌<◌, ◌≤◌, IfSome, length};
ghost use Rattle.console.specs.Steps.{Shown};

mod output;

use message::SIZE;
use output::Output;
use rules::{Desk, Message, Refusal, Steps};
use std::io::Read;

// The longest reply: 2 words for each of 32 boards, and 3 for each of 1,024 entries. So no step is refused with 12.
const REPLY: usize = 3136;

// What one read may give, behind the piece of a message that is left of the read before: a buffer with a length beside it, for no memory is taken.
const INPUT: usize = 65536;

// A desk after some messages, how many they were, the words that its last step wrote, and where its answers are printed.
#[derive(Drop)]
struct Lesson<'a, R> {
    desk: Desk,
    place: u64,
    reply: [u32; REPLY],
    output: Output<'a, R>,
}

fn main(rt: HostRuntime) {
    run(&rt, &mut rt.stdin());
}

// To the end of the input. The reads are counted up to a number that no run reaches, for a loop has to end.
fn run<R: Print + Eprint>(rt: &R, stdin: &mut impl Read) {
    let mut input = [0u8; INPUT];
    let mut lesson = Lesson {
        desk: desk::fresh(),
        place: 0,
        reply: [0; REPLY],
        output: Output::new(rt),
    };
    let mut left: usize = 0;
    for _ in 0..u64::MAX {
        let Some(end) = read_on(rt, stdin, &mut input, left) else {
            return lesson.finish(&input[..left]);
        };
        left = lesson.take_all(&input[..end]);
        input.copy_within(end - left..end, 0);
    }
}

// One read behind the bytes that are left, and where the bytes end then; nothing where no more came.
fn read_on(
    rt: &impl Eprint,
    stdin: &mut impl Read,
    input: &mut [u8; INPUT],
    left: usize,
) -> Option<usize>
    requires { left < INPUT }
    ensures { IfSome result (λ end. (left ≤ end) × (end ≤ INPUT)) }
{
    match stdin.read(&mut input[left..]) {
        Ok(0) => None,
        Ok(got) => Some(left + got),
        Err(_) => {
            let _ = eprintln!(rt; "console: standard input cannot be read");
            None
        }
    }
}

impl<R: Print + Eprint> Lesson<'_, R> {
    // Takes every whole message, and writes out what there is to say. So many bytes are left behind them: a piece of a message.
    fn take_all(&mut self, input: &[u8]) -> usize
        ensures { (result < 20) × (result ≤ length input.now) }
    {
        let mut rest = input;
        while SIZE <= rest.len() {
            self.take(rest);
            rest = message::rest(rest);
            // No input has 2 to the 64 messages.
            self.place = self.place.wrapping_add(1);
        }
        self.output.write_out();
        rest.len()
    }

    // Takes the message at the front: a clock message again and again, until its target is reached.
    fn take(&mut self, bytes: &[u8]) {
        let message = match message::read(bytes) {
            Ok(message) => message,
            Err(refusal) => return self.refuse(refusal),
        };
        loop {
            match desk::take(&mut self.desk, message, &mut self.reply) {
                Ok(Some(steps)) => {
                    put_blocks(&mut self.output, steps, &self.reply);
                    if steps.clock == message.first {
                        return;
                    }
                }
                Ok(None) => return,
                Err(refusal) => return self.refuse(refusal),
            }
        }
    }

    // A line with the message's place and the refusal's number.
    fn refuse(&mut self, refusal: Refusal) {
        let place = self.place;
        let _ = self.output.line(format_args!("refused {place} {refusal}"));
    }

    // The end: a last piece is no whole message and is refused, and the length of the list is told. No run from a fresh desk meets a refusal there.
    fn finish(&mut self, piece: &[u8])
        requires { length piece.now < 20 }
    {
        if !piece.is_empty()
            && let Err(refusal) = message::read(piece)
        {
            self.refuse(refusal);
        }
        match desk::length(&self.desk) {
            Ok(held) => {
                let _ = self.output.line(format_args!("held {held}"));
            }
            Err(refusal) => self.refuse(refusal),
        }
        self.output.write_out();
    }
}

// The blocks that a step wrote: of each a line with the moment, the board's number and how many entries it shows, and the entries' lines.
#[tactic(auto, using(crate::proofs::Shows::front))]
fn put_blocks<R: Print + Eprint>(output: &mut Output<R>, steps: Steps, reply: &[u32])
    requires { Shown steps reply.now }
{
    let moment = steps.clock;
    let mut left = &reply[..steps.words as usize];
    while let [board, count, behind @ ..] = left {
        put_board(output, moment, *board, *count);
        let (entries, others) = behind.split_at(3 * *count as usize);
        put_entries(output, entries);
        left = others;
    }
}

// A line of the moment, a board's number and how many entries it shows.
fn put_board<R: Print + Eprint>(output: &mut Output<R>, moment: u32, board: u32, count: u32) {
    let _ = output.line(format_args!("answer {moment} {board} {count}"));
}

// A line for each three words.
fn put_entries<R: Print + Eprint>(output: &mut Output<R>, words: &[u32]) {
    for [id, score, tick] in words.as_chunks::<3>().0 {
        put_entry(output, *id, *score, *tick);
    }
}

// A line of id, score and tick.
fn put_entry<R: Print + Eprint>(output: &mut Output<R>, id: u32, score: u32, tick: u32) {
    let _ = output.line(format_args!("{id} {score} {tick}"));
}
