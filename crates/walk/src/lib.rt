// The walk that keeps the shared list: each board alone marks what it shows, best first, and what has a mark stays.
#![tactic(auto)]

ghost use Rattle.std.specs.Prelude.{◌≡◌, cond, ◌&&◌, ◌≤◌, ltb, leb, length, map, replicate};
ghost use Rattle.std.specs.Int.Bits.{bit_and};
ghost use Rattle.lists.specs.Nested.{empties as empties_of, Rise};
ghost use Rattle.lists.specs.Marks.{noted};
ghost use Rattle.rules.specs.Moments.{upto};
ghost use Rattle.rules.specs.Cells.{cells};
ghost use Rattle.rules.specs.SharedList.{settled};
ghost use Rattle.walk.specs.Walk.{sum_cells, walkable, arrived, walked_to, thinned_to, with_entry};
ghost use Rattle.walk.specs.Line.{named_bits, spot_of, with_mark, kept};
ghost use Rattle.walk.specs.Edges.{views_from, board_views, Numbered, Stay, lowered, edge, rise_prop};

use rules::{BOARDS, Board, Desk, Entry, LIMIT, PLACES};

// An entry in line, the bit of its topic, and whether some board has marked it.
#[derive(Clone, Copy, Default)]
struct Spot {
    entry: Entry,
    bit: u8,
    marked: bool,
}

// Past the eighth topic the bit is none, for no board names it.
impl From<Entry> for Spot {
    ghost from_gives = { λ entry spot. spot ≡ spot_of entry };

    fn from(entry: Entry) -> Spot {
        Spot {
            entry,
            bit: 1u8.checked_shl(entry.topic).unwrap_or(0),
            marked: false,
        }
    }
}

impl Spot {
    // Whether a board that names these topics, and whose edge is this, shows the entry. It is one test and not two, seldom true, so that the processor foretells it;
    // the spot comes by value, for a bit that is read behind the first test makes two of it.
    fn is_shown(self, topics: u32, edge: u32) -> bool
        ensures { result ≡ (leb edge self.entry.tick && ltb 0 (bit_and topics self.bit)) }
    {
        let bit = if edge <= self.entry.tick { self.bit } else { 0 };
        0 < topics & u32::from(bit)
    }
}

// One board's views that have something left: the number of the first one's moment, and what each has left, no less than the one before it.
#[derive(Drop)]
struct Views<'a> {
    board: Board,
    first: usize,
    left: &'a mut [u32],
    ghost numbered: { Numbered board first (length left.now) },
    ghost rise: { Rise 1 left.now } by { rise_prop 1 left.now },
}

impl<'a> Views<'a> {
    // Of the views from this number on, those that have something left.
    #[tactic(auto, using(lists::proofs::Nested::empties_few))]
    fn new(board: Board, first: usize, left: &'a mut [u32]) -> Self
        requires numbered { Numbered board first (length left.old) }
        requires rise { Rise 0 left.old }
        ensures { Stay board first left.old result.board result.first result.left.now }
    {
        let full = empties(left);
        Views {
            board,
            first: first + full,
            left: &mut left[full..],
        }
    }

    // A board's views at the clock, with k left in each.
    #[tactic(auto, using(crate::proofs::Edges::numbered, lists::proofs::Nested::rise_all))]
    fn at(board: Board, clock: u32, left: &'a mut [u32; PLACES]) -> Self
        requires { cells board ≤ 1024 }
        ensures { Stay board (upto board clock) (replicate (cells board) board.k) result.board result.first result.left.now }
    {
        let left = &mut left[..board.cells()];
        left.fill(board.k);
        Views::new(board, board.moments_upto(clock as usize), left)
    }

    // The first tick that some view holds; none where none holds any.
    #[tactic(auto, unfolding(crate::specs::Edges::edge, rules::specs::Moments::moment))]
    fn edge(&self) -> Option<u32>
        ensures { result ≡ edge self.now.board self.now.first (length self.now.left.now) }
    {
        let at = (self.first + 1) * self.board.slide as usize;
        if self.left.is_empty() || at > LIMIT as usize {
            return None;
        }
        Some((at as u32).saturating_sub(self.board.window))
    }

    // The views once an entry of this tick is shown: those that hold it, up to the first whose moment is past its window, have one less left. From moment to moment
    // a slide is added, for a division at each entry that is shown takes longer than a few views.
    #[tactic(auto, using(crate::proofs::Fronts::front_at, crate::proofs::Fronts::rise_least))]
    fn lower(self, tick: u32) -> Self
        ensures { let v = self.entry in Stay v.board v.first (lowered v.board v.first tick v.left.now) result.board result.first result.left.now }
    {
        let Views { board, first, left } = self;
        let slide = board.slide as usize;
        let last = (tick as usize + board.window as usize).min(LIMIT as usize);
        let mut at = (first + 1) * slide;
        for left in &mut *left {
            if last < at {
                break;
            }
            *left -= 1;
            at += slide;
        }
        Views::new(board, first, left)
    }
}

// How many at the front have nothing left.
fn empties(left: &[u32]) -> usize
    ensures { result ≡ empties_of left.now }
{
    left.iter().take_while(|left| **left == 0).count()
}

// The topics that a board names, a bit for each.
fn topics(board: Board) -> u32
    ensures { result ≡ named_bits board }
{
    if board.mask == 0 { 255 } else { board.mask }
}

// One board alone marks what it shows of the line, best first.
fn mark(board: Board, clock: u32, left: &mut [u32; PLACES], line: &mut [Spot])
    requires { cells board ≤ 1024 }
    ensures { line.new ≡ noted with_mark (views_from board (upto board clock) (replicate (cells board) board.k)) line.old }
{
    let topics = topics(board);
    let mut views = Views::at(board, clock, left);
    let Some(mut edge) = views.edge() else {
        return;
    };
    for spot in line {
        if spot.is_shown(topics, edge) {
            spot.marked = true;
            views = views.lower(spot.entry.tick);
            let Some(next) = views.edge() else {
                return;
            };
            edge = next;
        }
    }
}

// Each board marks what it shows.
#[tactic(auto, using(crate::proofs::Walkable::cells_rest, crate::proofs::Keeping::next_board, crate::proofs::Keeping::boards_done))]
fn mark_all(boards: &[Board], clock: u32, line: &mut [Spot])
    requires { sum_cells boards.now ≤ 1024 }
    ensures { line.new ≡ noted with_mark (board_views boards.now clock) line.old }
{
    let mut left = [0; PLACES];
    for board in boards {
        mark(*board, clock, &mut left, line);
    }
}

// The list in line, with the new entry before the first whose score is below its own, or at the end.
fn line_up<'a>(
    listed: &[Entry],
    new: Option<Entry>,
    line: &'a mut [Spot; PLACES + 1],
) -> &'a mut [Spot]
    requires { length listed.now ≤ 1024 }
    ensures { result.now ≡ map spot_of (arrived new listed.now) }
{
    let mut waiting = new;
    // A count of what is in line, and no index of the list: the new entry moves it on.
    let mut total = 0;
    for entry in listed {
        if let Some(new) = waiting
            && entry.score < new.score
        {
            line[total] = Spot::from(new);
            total += 1;
            waiting = None;
        }
        line[total] = Spot::from(*entry);
        total += 1;
    }
    if let Some(new) = waiting {
        line[total] = Spot::from(new);
        total += 1;
    }
    &mut line[..total]
}

// What has a mark is the list now, with zeros behind it up to the old length.
fn keep(line: &[Spot], len: usize, entries: &mut [Entry; PLACES]) -> usize
    requires fits { length (kept line.now) ≤ 1024 }
    requires short { len ≤ 1024 }
    ensures now { result ≡ length (kept line.now) }
    ensures list { entries.new ≡ settled len entries.old (kept line.now) }
{
    // The list's length now, and no index of the line.
    let mut now = 0;
    for spot in line {
        if spot.marked {
            entries[now] = spot.entry;
            now += 1;
        }
    }
    entries[now..len.max(now)].fill(Entry::default());
    now
}

// Whether the walk can hold the desk. Each sum is tested as it grows, so it is no sum like the others: the walk is done with the first that is too much.
#[tactic(auto, using(std::proofs::lemmas::Bool::Decides::nat_tests, crate::proofs::Walkable::cells_rest, crate::proofs::Walkable::needs_rest, crate::proofs::Walkable::none_rest), unfolding(crate::specs::Walk::holdable))]
fn is_holdable(desk: &Desk) -> bool
    ensures { result ≡ walkable desk.now }
{
    if BOARDS < desk.count || PLACES < desk.len {
        return false;
    }
    let mut cells: usize = 0;
    let mut needs: usize = 0;
    for board in desk.loaded() {
        cells = cells.saturating_add(board.cells());
        needs = needs.saturating_add(board.need());
        if PLACES < cells || PLACES < needs {
            return false;
        }
    }
    true
}

// The walk over the list and the new entry, if there is one. A desk that the walk cannot hold stays as it stands.
#[tactic(auto, using(crate::proofs::Keeping::all_kept, crate::proofs::Keeping::few_kept), unfolding(crate::specs::Walk::holdable))]
fn walk(desk: &mut Desk, clock: u32, new: Option<Entry>)
    ensures { desk.new ≡ cond (walkable desk.old) (walked_to desk.old clock new) desk.old }
{
    if !is_holdable(desk) {
        return;
    }
    // A place more than the list has, for the new entry.
    let mut line = [Spot::default(); PLACES + 1];
    let line = line_up(desk.listed(), new, &mut line);
    mark_all(desk.loaded(), clock, line);
    desk.len = keep(line, desk.len, &mut desk.entries);
    desk.time.clock = clock;
}

// The list after a step to this clock.
#[tactic(auto, unfolding(crate::specs::Walk::thinned_to))]
pub fn thin(desk: &mut Desk, clock: u32)
    ensures { desk.new ≡ thinned_to desk.old clock }
{
    walk(desk, clock, None);
}

// The list after a request at the desk's clock.
#[tactic(auto, unfolding(crate::specs::Walk::with_entry))]
pub fn add(desk: &mut Desk, e: Entry)
    ensures { desk.new ≡ with_entry desk.old e }
{
    walk(desk, desk.time.clock, Some(e));
}
