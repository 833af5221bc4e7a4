// A step's blocks, written into a lent slice of words.
#![tactic(auto)]

ghost use Rattle.std.specs.Prelude.{◌≡◌, [], ◌∷◌, ◌+◌, ◌*◌, ◌≤◌, length};
ghost use Rattle.rules.specs.Desk.{loaded, listed};
ghost use Rattle.rules.specs.Refusals.{reply_need};
ghost use Rattle.rules.specs.Calls.{entry_words, block, shown_at, blocks, written};
ghost use Rattle.reply.specs.Written.{wrote, blocks_into, all_written};

use rules::{BOARDS, Board, Desk, Entry, PLACES};

// The number of due boards, and the number of words written.
#[derive(Clone, Copy)]
pub struct Wrote {
    pub due: u32,
    pub words: u32,
}

// The words that a reply must have: 2 + 3k for each board, due or not. A loop, and not `order`'s sum, for no board makes this one too much.
#[tactic(auto, unfolding(rules::specs::Refusals::reply_need))]
pub fn reply_need(desk: &Desk) -> usize
    ensures { result ≡ reply_need (loaded desk.now) }
{
    let mut need: usize = 0;
    for board in desk.loaded() {
        need += 2 + 3 * board.k as usize;
    }
    need
}

// An entry: its id, score and tick. Three stores, for copy_from_slice makes a block take more than twice as long.
fn write_entry(e: Entry, reply: &mut [u32])
    requires { 3 ≤ length reply.old }
    ensures { reply.new ≡ written (entry_words (e ∷ [])) reply.old }
{
    reply[0] = e.id;
    reply[1] = e.score;
    reply[2] = e.tick;
}

// A board's block, and how many words it has: its number, how many entries it shows, and their words.
fn write_block(number: u32, board: Board, at: u32, listed: &[Entry], reply: &mut [u32]) -> usize
    requires { 2 + 3 * board.k ≤ length reply.old }
    ensures { let words = block number (shown_at board at listed.now) in (result ≡ length words) × (reply.new ≡ written words reply.old) }
{
    // A count and no index: it is the block's second word.
    let mut shown: usize = 0;
    for e in listed
        .iter()
        .filter(|e| board.in_window(at, **e))
        .take(board.k as usize)
    {
        write_entry(*e, &mut reply[2 + 3 * shown..]);
        shown += 1;
    }
    reply[0] = number;
    reply[1] = shown as u32;
    2 + 3 * shown
}

// Each due board's block is written into what remains of the reply.
#[tactic(auto, unfolding(rules::specs::Calls::blocks))]
fn write_due(desk: &Desk, at: u32, reply: &mut [u32]) -> Wrote
    requires { reply_need (loaded desk.now) ≤ length reply.old }
    ensures { (result ≡ all_written desk.now at) × (reply.new ≡ written (blocks 0 (loaded desk.now) at (listed desk.now)) reply.old) }
{
    let listed = desk.listed();
    let mut due: u32 = 0;
    let mut next: usize = 0;
    for (number, board) in desk.loaded().iter().enumerate() {
        if board.is_moment(at) {
            next += write_block(number as u32, *board, at, listed, &mut reply[next..]);
            due += 1;
        }
    }
    Wrote {
        due,
        words: next as u32,
    }
}

// The blocks of all boards due at a moment, in board order. What a step never hands in is answered too: nothing is written.
#[tactic(auto, unfolding(crate::specs::Written::wrote, crate::specs::Written::blocks_into, crate::specs::Written::writable))]
pub fn write_blocks(desk: &Desk, at: u32, reply: &mut [u32]) -> Wrote
    ensures { (result ≡ wrote desk.now at (length reply.old)) × (reply.new ≡ blocks_into desk.now at reply.old) }
{
    if BOARDS < desk.count || PLACES < desk.len || reply.len() < reply_need(desk) {
        return Wrote { due: 0, words: 0 };
    }
    write_due(desk, at, reply)
}
