// 99: whether a desk's value is in disorder, whatever numbers stand in its fields.
#![tactic(auto)]

ghost use Rattle.std.specs.Prelude.{◌≡◌, ◌&&◌, ◌+◌, ◌^◌, ◌-◌, leb, min};
ghost use Rattle.lists.specs.Views.{all};
ghost use Rattle.rules.specs.Desk.{board_fits, need as need_of, needs, loaded};
ghost use Rattle.rules.specs.Refusals.{disorder, entry_fits, falls};

use rules::{BOARDS, Board, Desk, Entry, PLACES};

// The sum of needs. Boards that do not fit may have any need: a sum past the largest number stays there, and is too much anyway.
#[tactic(auto, unfolding(rules::specs::Desk::needs))]
fn sum_of_needs(boards: &[Board]) -> usize
    ensures { result ≡ min (needs boards.now) (2 ^ 64 - 1) }
{
    let mut sum: usize = 0;
    for board in boards {
        sum = sum.saturating_add(board.need());
    }
    sum
}

// Whether the desk has at most 32 boards, and the sum of needs stays at most 1,024 with this board's.
pub fn fits_beside(desk: &Desk, board: Board) -> bool
    ensures { result ≡ (leb desk.now.count 32 && leb (need_of board + needs (loaded desk.now)) 1024) }
{
    desk.count <= BOARDS && board.need().saturating_add(sum_of_needs(desk.loaded())) <= PLACES
}

// Whether an entry's fields are in range, and its tick not above the clock.
#[tactic(auto, unfolding(rules::specs::Refusals::entry_fits))]
fn entry_fits(clock: u32, e: Entry) -> bool
    ensures { result ≡ entry_fits clock e }
{
    rules::request_fits(e.topic, e.score) && e.tick <= clock
}

// Whether all boards are in their ranges.
fn boards_fit(boards: &[Board]) -> bool
    ensures { result ≡ all board_fits boards.now }
{
    boards.iter().all(|board| board.fits())
}

// Whether all entries fit.
fn entries_fit(clock: u32, entries: &[Entry]) -> bool
    ensures { result ≡ all (entry_fits clock) entries.now }
{
    entries.iter().all(|e| entry_fits(clock, *e))
}

// Whether no entry has a score above the one before it.
fn falls(entries: &[Entry]) -> bool
    ensures { result ≡ falls entries.now }
{
    entries.is_sorted_by(|e, next| next.score <= e.score)
}

// Whether all entries fit, and none has a score above the one before it.
fn entries_stand(clock: u32, entries: &[Entry]) -> bool
    ensures { result ≡ (all (entry_fits clock) entries.now && falls entries.now) }
{
    entries_fit(clock, entries) && falls(entries)
}

// Whether any of the rules of document 01 for a desk's value is broken.
#[tactic(auto, unfolding(rules::specs::Refusals::disorder))]
pub fn in_disorder(desk: &Desk) -> bool
    ensures { result ≡ disorder desk.now }
{
    let needs = sum_of_needs(desk.loaded());
    BOARDS < desk.count
        || PLACES < needs
        || needs < desk.len
        || (!desk.is_open() && 0 < desk.len)
        || !rules::clock_fits(desk.time.clock)
        || 1 < desk.time.phase
        || !boards_fit(desk.loaded())
        || !entries_stand(desk.time.clock, desk.listed())
}
