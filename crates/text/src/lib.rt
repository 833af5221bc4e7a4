// Document 01's text form of messages, read byte by byte: a line may come in pieces of any size. Each line that is whole is written as a message.
#![tactic(auto)]

ghost use Rattle.std.specs.Prelude.{◌≡◌, true};
ghost use Rattle.message.specs.Outcomes.{wrote};
ghost use Rattle.rules.specs.Replies.{replied};
ghost use Rattle.text.specs.Lines.{read_numbers, text_call};
ghost use Rattle.text.specs.Machine.{fresh, next, ends, says, line_end, begun, end_call, piece_call, taken, written, in_word, in_words};

use rules::{Message, Refusal};

// A line that was begun: its finished numbers, how many they are, the one that is being read, whether that has a digit, and whether the form is broken.
// `take` and `end` promise an answer for every value of these, so for a number without a digit, for a count past the numbers, and for all of
// these in a broken line: no `Option`, no slice, no `Result`.
#[derive(Clone, Copy, Default)]
pub struct Begun {
    pub numbers: [u64; 6],
    pub count: usize,
    pub value: u64,
    pub digits: bool,
    pub broken: bool,
}

// What was written: how many messages, the place behind them, and whether a line was refused: the one whose number is that count.
#[derive(Clone, Copy)]
pub struct Written {
    pub messages: usize,
    pub place: usize,
    pub answer: Result<(), Refusal>,
}

// What came of a piece: the line that is left begun, and what was written.
#[derive(Clone, Copy)]
pub struct Taken {
    pub line: Begun,
    pub written: Written,
}

// From here on a number is out of every range, and it need not be known by how much.
const OUT_OF_RANGE: u64 = 1 << 32;

// Nothing of a line.
pub fn fresh() -> Begun
    ensures { result ≡ fresh }
{
    Begun::default()
}

// The messages of a whole text, from a place on.
pub fn write(text: &[u8], bytes: &mut [u8], at: usize) -> Written
    ensures { written result bytes.new ≡ text_call text.now bytes.old at }
{
    let Taken { line, written } = take(fresh(), text, bytes, at);
    Written {
        answer: written.answer.and(end(line)),
        ..written
    }
}

// The next bytes of a text, behind a line that was begun.
#[tactic(auto, using(crate::proofs::Pieces::goes_on, crate::proofs::Pieces::line_written, crate::proofs::Pieces::nothing_left))]
pub fn take(mut line: Begun, piece: &[u8], bytes: &mut [u8], at: usize) -> Taken
    ensures { taken result bytes.new ≡ piece_call line piece.now 0 bytes.old at }
{
    let mut written = Written {
        messages: 0,
        place: at,
        answer: Ok(()),
    };
    for &byte in piece {
        if byte == b'\n' {
            written.answer = line.line_end(bytes, written.place);
            if written.answer.is_err() {
                return Taken { line, written };
            }
            line = fresh();
            written.messages += 1;
            written.place += message::SIZE;
        } else {
            line.next(byte);
        }
    }
    Taken { line, written }
}

// The end of a text: a line that was begun lacks its line feed.
#[tactic(auto, unfolding(crate::specs::Machine::end_call))]
pub fn end(line: Begun) -> Result<(), Refusal>
    ensures { replied result ≡ end_call line }
{
    if line.is_begun() {
        Err(Refusal::Form)
    } else {
        Ok(())
    }
}

impl Begun {
    #[tactic(auto, unfolding(crate::specs::Machine::begun))]
    fn is_begun(&self) -> bool
        ensures { result ≡ begun self.now }
    {
        self.broken || self.digits || 0 < self.count
    }

    // One byte more, which is no line feed. The digit is asked for first, in an `if`: a `match` compiles to a test for the space before it, and a long number
    // then takes about twice as long.
    #[tactic(auto, unfolding(crate::specs::Machine::next))]
    fn next(&mut self, byte: u8)
        ensures { self.new ≡ next self.old byte }
    {
        if byte.is_ascii_digit() {
            self.value = self.value.min(OUT_OF_RANGE) * 10 + u64::from(byte - b'0');
            self.digits = true;
        } else if byte == b' ' {
            self.ends();
        } else {
            self.broken = true;
        }
    }

    // A number ends. It has a digit, and no line has a seventh.
    fn ends(&mut self)
        ensures { self.new ≡ ends self.old }
    {
        if self.digits && self.count < self.numbers.len() {
            self.numbers[self.count] = self.value;
            self.count += 1;
            self.value = 0;
            self.digits = false;
        } else {
            self.broken = true;
        }
    }

    // The line's message is written.
    #[tactic(auto, unfolding(crate::specs::Machine::line_end))]
    fn line_end(mut self, bytes: &mut [u8], at: usize) -> Result<(), Refusal>
        ensures { wrote result bytes.new ≡ line_end self bytes.old at }
    {
        self.ends();
        let message = self.said()?;
        message::write(message::VERSION, message, bytes, at)
    }

    // The message in the numbers of a line. A line that was handed in may have any count.
    #[tactic(auto, unfolding(crate::specs::Lines::read_numbers))]
    fn said(&self) -> Result<Message, Refusal>
        ensures { replied result ≡ says self.now }
    {
        if self.broken {
            return Err(Refusal::Form);
        }
        message_of(&self.numbers[..self.count.min(self.numbers.len())])
    }
}

// Version 1, a known kind, and as many numbers behind it as the kind has fields, each of 32 bits. The kinds stay numbers: a line gives one and a message holds
// one, and so the four lines stand here as they are written; a `Kind` between would only be made and turned back.
#[tactic(auto, using(crate::proofs::Numbers::board_read), unfolding(crate::specs::Lines::read_numbers, crate::specs::Lines::formed, crate::specs::Lines::of_numbers, crate::specs::Lines::field_parts, rules::specs::Messages::layout))]
fn message_of(numbers: &[u64]) -> Result<Message, Refusal>
    ensures { replied result ≡ read_numbers true numbers.now }
{
    match *numbers {
        [1, 1, mask, window, slide, k] => in_words(1, mask, window, slide, k),
        [1, 2, topic, id, score] => in_words(2, topic, id, score, 0),
        [1, 3] => in_words(3, 0, 0, 0, 0),
        [1, 4, target] => in_words(4, 0, target, 0, 0),
        _ => Err(Refusal::Form),
    }
}

// The message with these numbers in byte 6 and at bytes 8, 12 and 16, if 32 bits hold each.
fn in_words(kind: u32, byte: u64, first: u64, second: u64, third: u64) -> Result<Message, Refusal>
    ensures { replied result ≡ in_words (record { kind = kind; byte = byte; first = first; second = second; third = third }) }
{
    Ok(Message {
        kind,
        byte: in_word(byte)?,
        first: in_word(first)?,
        second: in_word(second)?,
        third: in_word(third)?,
    })
}

// The number, if 32 bits hold it.
fn in_word(number: u64) -> Result<u32, Refusal>
    ensures { replied result ≡ in_word number }
{
    u32::try_from(number).map_err(|_| Refusal::Range)
}
