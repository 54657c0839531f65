ghost use Rattle.std.specs.Prelude.{◌≡◌, ◌<◌, [], ◌∷◌, IfOk, IfSome};
ghost use Rattle.board_core.specs.Bags.{Names};
ghost use Rattle.verdict_board.specs.Views.{IsWhole, fresh_view, joined_views};
ghost use Rattle.verdict_board.specs.Seats.{IsAt, IsSameSeat, view_of};

use hart_words::NoMemory;
use std::alloc::Global;
use std::test::Fail;
use std::thread::{Threads, join};
use verdict_board::{Board, Seat};

/// One seat draws all of three segments and posts the first.
#[test]
fn one_seat_draws_all(rt: HostRuntime) -> Result<(), Fail> {
    let (board, mut seat) = one_seat(rt.alloc(), 3)?;
    let first = board.claim(&mut seat);
    let before = board.look(&mut seat);
    let after = post_and_look(&board, &mut seat, first);
    let second = board.claim(&mut seat);
    let third = board.claim(&mut seat);
    let none = board.claim(&mut seat);
    let again = board.claim(&mut seat);
    let (drawn, least) = board.close(seat);
    assert_eq!(rt;
        [first, second, third, none, again],
        [Some(0), Some(1), Some(2), None, None]
    );
    assert_eq!(rt; [before, after, least], [3, 0, 0]);
    assert_eq!(rt; drawn, 4);
    Ok(())
}

/// What one of two seats posts, the other sees.
#[test]
fn two_seats_share(rt: HostRuntime) -> Result<(), Fail> {
    let (board, mut a, mut b) = two_seats(rt.alloc(), 3)?;
    let first = board.claim(&mut a);
    let second = board.claim(&mut b);
    let own = post_and_look(&board, &mut a, first);
    let seen = board.look(&mut b);
    board.join(&mut a, b);
    let third = board.claim(&mut a);
    let (drawn, least) = board.close(a);
    assert_eq!(rt; [first, second, third], [Some(0), Some(1), Some(2)]);
    assert_eq!(rt; [own, seen, least], [0, 0, 0]);
    assert_eq!(rt; drawn, 3);
    Ok(())
}

/// Two threads draw until each finds nothing left.
#[test]
fn two_threads_share(rt: HostRuntime) -> Result<(), Fail> {
    let (board, a, b) = two_seats(rt.alloc(), 2)?;
    let (drawn, least) = share(&rt, board, a, b);
    assert_eq!(rt; drawn, 4);
    assert_eq!(rt; least, 2);
    Ok(())
}

fn share<R: Threads + Sync>(rt: &R, board: Board, a: Seat, b: Seat) -> (u64, u32)
    requires a { IsAt board a }
    requires b { IsAt board b }
    requires whole { IsWhole (joined_views (view_of a) (view_of b)) }
{
    let shared = &board;
    let (mut a, b) = join(
        rt,
        move || -> Seat
            requires { IsAt shared.now a }
            ensures { IsAt shared.entry.now result × IsSameSeat (view_of a) (view_of result) }
        { draw_all(shared, a) },
        move || -> Seat
            requires { IsAt shared.now b }
            ensures { IsAt shared.entry.now result × IsSameSeat (view_of b) (view_of result) }
        { draw_all(shared, b) },
    );
    board.join(&mut a, b);
    board.close(a)
}

/// Draws both of two segments, if nobody else does, and finds nothing left.
fn draw_all(board: &Board, mut seat: Seat) -> Seat
    requires { IsAt board.now seat }
    ensures { IsAt board.now result × IsSameSeat (view_of seat) (view_of result) }
{
    board.claim(&mut seat);
    board.claim(&mut seat);
    board.claim(&mut seat);
    seat
}

/// Posts what was just drawn, and looks.
fn post_and_look(board: &Board, seat: &mut Seat, drawn: Option<u32>) -> u32
    requires at { IsAt board.now seat.old }
    requires drawn { IfSome drawn (λ segment. (segment < board.now.segments)
        × Names (view_of seat.old).draws segment) }
    ensures at { IsAt board.now seat.new }
    ensures same { IsSameSeat (view_of seat.old) (view_of seat.new) }
{
    if let Some(segment) = drawn {
        board.post(seat, segment);
    }
    board.look(seat)
}

fn one_seat(alloc: Global, n: u32) -> Result<(Board, Seat), NoMemory>
    ensures { IfOk result (λ opened. IsAt opened.0 opened.1
        × (view_of opened.1 ≡ fresh_view n 1 (0 ∷ []))) }
{
    let (board, mut seats) = Board::open(alloc, n, 1)?;
    match seats.pop() {
        None => unreachable!(),
        Some(seat) => Ok((board, seat)),
    }
}

fn two_seats(alloc: Global, n: u32) -> Result<(Board, Seat, Seat), NoMemory>
    ensures { IfOk result (λ opened. IsAt opened.0 opened.1 × IsAt opened.0 opened.2
        × (view_of opened.1 ≡ fresh_view n 2 (0 ∷ []))
        × (view_of opened.2 ≡ fresh_view n 2 (1 ∷ []))) }
{
    let (board, mut seats) = Board::open(alloc, n, 2)?;
    let second = match seats.pop() {
        None => unreachable!(),
        Some(seat) => seat,
    };
    match seats.pop() {
        None => unreachable!(),
        Some(first) => Ok((board, first, second)),
    }
}
