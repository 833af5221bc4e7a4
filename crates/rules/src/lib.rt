// Document 01's values: what a desk has, what a message holds, what a call answers; and the leaf functions on one board.
#![tactic(auto)]

ghost use Rattle.std.specs.Prelude.{◌≡◌, ◌≤◌, length, Some};
ghost use Rattle.std.specs.Fmt.{decimal};
ghost use Rattle.rules.specs.Desk.{names, need, board_fits, request_fits, clock_fits, loaded, listed, is_open};
ghost use Rattle.rules.specs.Messages.{board_of};
ghost use Rattle.rules.specs.Moments.{is_moment, moment, upto, in_window};
ghost use Rattle.rules.specs.Cells.{cells};
ghost use Rattle.rules.specs.Replies.{number, kind_of};

use std::error::Error;
use std::fmt;

// The last tick of the clock, and the highest score.
pub const LIMIT: u32 = 1_000_000_000;

// The most boards that a desk has, and the places of its list: the most that the boards' needs come to.
pub const BOARDS: usize = 32;

pub const PLACES: usize = 1024;

#[repr(C)]
#[derive(Clone, Copy, Default)]
pub struct Board {
    pub mask: u32,
    pub window: u32,
    pub slide: u32,
    pub k: u32,
}

// A request on the shared list; its tick is the clock when it was accepted.
#[repr(C)]
#[derive(Clone, Copy, Default)]
pub struct Entry {
    pub id: u32,
    pub score: u32,
    pub tick: u32,
    pub topic: u32,
}

// The phase is 0 while loading and 1 while open; a number, for C lends the desk, and any other is refused with 99.
#[repr(C)]
#[derive(Clone, Copy)]
pub struct Time {
    pub clock: u32,
    pub phase: u32,
}

// The first `count` boards are loaded; the first `len` entries are on the list. Arrays with a length beside them, for C lends the desk, and no call takes memory.
#[repr(C)]
#[derive(Clone, Copy)]
pub struct Desk {
    pub time: Time,
    pub count: usize,
    pub boards: [Board; BOARDS],
    pub len: usize,
    pub entries: [Entry; PLACES],
}

// A message's kind, its byte 6, and its numbers at bytes 8, 12 and 16. The kind is a number: `message::write` and `desk::take` promise
// an answer for any, 4 for one that is none.
#[repr(C)]
#[derive(Clone, Copy)]
pub struct Message {
    pub kind: u32,
    pub byte: u32,
    pub first: u32,
    pub second: u32,
    pub third: u32,
}

// The kinds of messages.
#[derive(Clone, Copy, Debug, PartialEq, Eq)]
pub enum Kind {
    Board,
    Request,
    Open,
    Clock,
}

// The refusals of documents 01 and 02, by their numbers.
#[derive(Clone, Copy, Debug, PartialEq, Eq)]
pub enum Refusal {
    Short = 1,
    Mark = 2,
    Version = 3,
    Kind = 4,
    Nonzero = 5,
    Range = 6,
    Boards = 7,
    Needs = 8,
    Phase = 9,
    Boardless = 10,
    Past = 11,
    Reply = 12,
    Place = 13,
    Room = 14,
    Form = 15,
    Disorder = 99,
}

// What an accepted step returns: the clock reached, the number of due boards, the number of words written.
#[derive(Clone, Copy, Debug, Default, PartialEq, Eq)]
pub struct Steps {
    pub clock: u32,
    pub due: u32,
    pub words: u32,
}

impl TryFrom<u32> for Kind {
    type Error = Refusal;

    ghost try_from_gives = { λ n kind. kind ≡ kind_of n };

    fn try_from(number: u32) -> Result<Kind, Refusal> {
        match number {
            1 => Ok(Kind::Board),
            2 => Ok(Kind::Request),
            3 => Ok(Kind::Open),
            4 => Ok(Kind::Clock),
            0 | 5.. => Err(Refusal::Kind),
        }
    }
}

impl From<Refusal> for u32 {
    ghost from_gives = { λ refusal n. n ≡ number refusal };

    fn from(refusal: Refusal) -> u32 {
        refusal as u32
    }
}

// A refusal is printed as its number.
impl fmt::Display for Refusal {
    ghost output = { λ refusal. Some (decimal (number refusal)) };

    fn fmt<W: fmt::Write>(&self, f: &mut fmt::Formatter<W>) -> fmt::Result {
        let number = u32::from(*self);
        write!(f, "{number}")
    }
}

impl Error for Refusal {}

impl Board {
    // Whether the board's fields are in their ranges.
    #[tactic(auto, unfolding(crate::specs::Desk::board_fits))]
    pub fn fits(self) -> bool
        ensures { result ≡ board_fits self }
    {
        self.mask <= 255
            && (1..=86400).contains(&self.window)
            && (1..=86400).contains(&self.slide)
            && (1..=256).contains(&self.k)
    }

    // Topics are 0 to 7; a mask of 0 names all eight.
    #[tactic(auto, unfolding(crate::specs::Desk::names))]
    pub fn names(self, topic: u32) -> bool
        ensures { result ≡ names self topic }
    {
        topic < 8 && (self.mask == 0 || (self.mask >> topic) % 2 == 1)
    }

    // The window divided by the slide, rounded up.
    #[tactic(auto, unfolding(crate::specs::Cells::cells, crate::specs::Desk::rounded_up))]
    pub fn cells(self) -> usize
        ensures { result ≡ cells self }
    {
        if self.slide == 0 {
            return 0;
        }
        (self.window as usize).div_ceil(self.slide as usize)
    }

    #[tactic(auto, using(crate::proofs::MomentLaw::rounded_small), unfolding(crate::specs::Desk::need, crate::specs::Cells::cells))]
    pub fn need(self) -> usize
        ensures { result ≡ need self }
    {
        self.k as usize * self.cells()
    }

    // How many of the board's moments are at most x.
    #[tactic(auto, unfolding(crate::specs::Moments::upto))]
    pub fn moments_upto(self, x: usize) -> usize
        ensures { result ≡ upto self x }
    {
        x.min(LIMIT as usize)
            .checked_div(self.slide as usize)
            .unwrap_or(0)
    }

    // The board's first moment above the clock; past the limit it is none.
    #[tactic(auto, using(crate::proofs::MomentLaw::upto_small), unfolding(crate::specs::Moments::moment))]
    pub fn next_moment(self, clock: u32) -> usize
        ensures { result ≡ moment self (upto self clock) }
    {
        (self.moments_upto(clock as usize) + 1) * self.slide as usize
    }

    #[tactic(auto, unfolding(crate::specs::Moments::is_moment))]
    pub fn is_moment(self, tick: u32) -> bool
        ensures { result ≡ is_moment self tick }
    {
        0 < tick && tick.is_multiple_of(self.slide) && tick <= LIMIT
    }

    // Whether the entry lies in the board's window at a moment.
    #[tactic(auto, unfolding(crate::specs::Moments::in_window))]
    pub fn in_window(self, at: u32, e: Entry) -> bool
        ensures { result ≡ in_window self at e }
    {
        self.names(e.topic) && e.tick < at && at as usize <= e.tick as usize + self.window as usize
    }
}

impl Message {
    // Mask, window, slide and k of a board message.
    pub fn board(self) -> Board
        ensures { result ≡ board_of self }
    {
        Board {
            mask: self.byte,
            window: self.first,
            slide: self.second,
            k: self.third,
        }
    }
}

impl Desk {
    // The boards in their order; an array has no more than 32, whatever the count says.
    pub fn loaded(&self) -> &[Board]
        ensures boards { result.now ≡ loaded self.now }
        ensures few { length result.now ≤ 32 }
    {
        &self.boards[..self.count.min(BOARDS)]
    }

    // The entries on the list, best first; likewise no more than 1,024.
    pub fn listed(&self) -> &[Entry]
        ensures entries { result.now ≡ listed self.now }
        ensures few { length result.now ≤ 1024 }
    {
        &self.entries[..self.len.min(PLACES)]
    }

    pub fn is_open(&self) -> bool
        ensures { result ≡ is_open self.now }
    {
        self.time.phase == 1
    }
}

// Whether a request's topic and score are in their ranges.
#[tactic(auto, unfolding(crate::specs::Desk::request_fits))]
pub fn request_fits(topic: u32, score: u32) -> bool
    ensures { result ≡ request_fits topic score }
{
    topic <= 7 && score <= LIMIT
}

// Whether a clock or a target is in its range.
pub fn clock_fits(clock: u32) -> bool
    ensures { result ≡ clock_fits clock }
{
    clock <= LIMIT
}
