// The desk and its calls. A desk is lent and altered where it stands; a refused call leaves it, and the reply, as they stood.
#![tactic(auto)]

ghost use Rattle.std.specs.Prelude.{◌≡◌, cond, length, Ok, Err};
ghost use Rattle.rules.specs.Desk.{fresh as fresh_desk};
ghost use Rattle.rules.specs.Moments.{reached as reached_by};
ghost use Rattle.rules.specs.Calls.{length_call, place_call, board_call, open_call, request_call, step_call, message_call};
ghost use Rattle.rules.specs.Refusals.{disorder};
ghost use Rattle.rules.specs.Replies.{replied};
ghost use Rattle.reply.specs.Written.{blocks_into};
ghost use Rattle.walk.specs.Walk.{thinned_to};
ghost use Rattle.desk.specs.Outcomes.{outcome, step_outcome, moved_by, message_outcome};

use rules::{BOARDS, Board, Desk, Entry, Kind, Message, PLACES, Refusal, Steps, Time};

// A loading desk with no board, at clock 0.
#[tactic(auto, unfolding(rules::specs::Desk::fresh))]
pub fn fresh() -> Desk
    ensures { result ≡ fresh_desk }
{
    Desk {
        time: Time { clock: 0, phase: 0 },
        count: 0,
        boards: [Board::default(); BOARDS],
        len: 0,
        entries: [Entry::default(); PLACES],
    }
}

// A desk in disorder is refused before all else.
fn in_order(desk: &Desk) -> Result<(), Refusal>
    ensures { result ≡ cond (disorder desk.now) (Err Refusal.Disorder) (Ok tt) }
{
    if order::in_disorder(desk) {
        return Err(Refusal::Disorder);
    }
    Ok(())
}

// Load a board.
#[tactic(auto, unfolding(rules::specs::Calls::board_call))]
pub fn load(desk: &mut Desk, board: Board) -> Result<(), Refusal>
    ensures { outcome result desk.new ≡ board_call desk.old board }
{
    in_order(desk)?;
    if !board.fits() {
        return Err(Refusal::Range);
    }
    if desk.is_open() {
        return Err(Refusal::Phase);
    }
    if BOARDS <= desk.count {
        return Err(Refusal::Boards);
    }
    if !order::fits_beside(desk, board) {
        return Err(Refusal::Needs);
    }
    desk.boards[desk.count] = board;
    desk.count += 1;
    Ok(())
}

// Open the desk.
#[tactic(auto, unfolding(rules::specs::Calls::open_call))]
pub fn open(desk: &mut Desk) -> Result<(), Refusal>
    ensures { outcome result desk.new ≡ open_call desk.old }
{
    in_order(desk)?;
    if desk.is_open() {
        return Err(Refusal::Phase);
    }
    if desk.count == 0 {
        return Err(Refusal::Boardless);
    }
    desk.time.phase = 1;
    Ok(())
}

// A request at the desk's clock. It answers only that it was accepted.
#[tactic(auto, using(rules::proofs::Refusing::in_order, crate::proofs::Keeping::entry_named), unfolding(rules::specs::Calls::request_call))]
pub fn request(desk: &mut Desk, topic: u32, id: u32, score: u32) -> Result<(), Refusal>
    ensures { outcome result desk.new ≡ request_call desk.old topic id score }
{
    in_order(desk)?;
    if !rules::request_fits(topic, score) {
        return Err(Refusal::Range);
    }
    if !desk.is_open() {
        return Err(Refusal::Phase);
    }
    let e = Entry {
        id,
        score,
        tick: desk.time.clock,
        topic,
    };
    walk::add(desk, e);
    Ok(())
}

// Step to the earliest moment above the clock and not above the target, or to the target.
#[tactic(auto, using(rules::proofs::Refusing::in_order, crate::proofs::Keeping::small, crate::proofs::Keeping::moves, crate::proofs::Keeping::not_back, std::proofs::lemmas::Bool::Decides::nat_tests), unfolding(rules::specs::Calls::step_call))]
pub fn step(desk: &mut Desk, target: u32, reply: &mut [u32]) -> Result<Steps, Refusal>
    ensures { step_outcome result desk.new reply.new ≡ step_call desk.old target reply.old }
{
    in_order(desk)?;
    let clock = desk.time.clock;
    if !rules::clock_fits(target) {
        return Err(Refusal::Range);
    }
    if !desk.is_open() {
        return Err(Refusal::Phase);
    }
    if target < clock {
        return Err(Refusal::Past);
    }
    if reply.len() < reply::reply_need(desk) {
        return Err(Refusal::Reply);
    }
    if target == clock {
        return Ok(Steps {
            clock,
            due: 0,
            words: 0,
        });
    }
    let at = reached(desk.loaded(), clock, target);
    Ok(move_on(desk, at, reply))
}

// The earliest moment above the clock over all boards, or the target where that comes first.
#[tactic(auto, using(rules::proofs::Stepping::reached_at_most), unfolding(rules::specs::Moments::reached))]
fn reached(boards: &[Board], clock: u32, target: u32) -> u32
    ensures { result ≡ reached_by boards.now clock target }
{
    let mut at = target as usize;
    for board in boards {
        at = at.min(board.next_moment(clock));
    }
    at as u32
}

// A step that moves the clock: the answers of all boards due, then the list that is still needed.
fn move_on(desk: &mut Desk, at: u32, reply: &mut [u32]) -> Steps
    ensures { (result ≡ moved_by desk.old at (length reply.old)) × (desk.new ≡ thinned_to desk.old at) × (reply.new ≡ blocks_into desk.old at reply.old) }
{
    let wrote = reply::write_blocks(desk, at, reply);
    walk::thin(desk, at);
    Steps {
        clock: at,
        due: wrote.due,
        words: wrote.words,
    }
}

// The length of the shared list.
#[tactic(auto, using(crate::proofs::Keeping::small), unfolding(rules::specs::Calls::length_call))]
pub fn length(desk: &Desk) -> Result<u32, Refusal>
    ensures { replied result ≡ length_call desk.now }
{
    in_order(desk)?;
    Ok(desk.len as u32)
}

// The entry at a place of the shared list.
#[tactic(auto, using(crate::proofs::Keeping::small), unfolding(rules::specs::Calls::place_call))]
pub fn place(desk: &Desk, at: usize) -> Result<Entry, Refusal>
    ensures { replied result ≡ place_call desk.now at }
{
    in_order(desk)?;
    // By `get` the proof of its `None` stayed open, in two forms.
    if desk.len <= at {
        return Err(Refusal::Place);
    }
    Ok(desk.entries[at])
}

// Take a message: the call that its kind names. Of a step it answers what the step reached.
#[tactic(auto, unfolding(rules::specs::Calls::message_call))]
pub fn take(desk: &mut Desk, message: Message, reply: &mut [u32]) -> Result<Option<Steps>, Refusal>
    ensures { message_outcome result desk.new reply.new ≡ message_call desk.old message reply.old }
{
    match Kind::try_from(message.kind) {
        Ok(Kind::Board) => load(desk, message.board())?,
        Ok(Kind::Request) => request(desk, message.byte, message.first, message.second)?,
        Ok(Kind::Open) => open(desk)?,
        Ok(Kind::Clock) => return Ok(Some(step(desk, message.first, reply)?)),
        // 99 comes before 4.
        Err(refusal) => {
            in_order(desk)?;
            return Err(refusal);
        }
    }
    Ok(None)
}
