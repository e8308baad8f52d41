//! Boards that one thread works on, by hand and whole.
ghost use Rattle.std.specs.Prelude.{ℕ, true, false, ◌≡◌, ◌+◌, ◌*◌, ◌<◌, ◌≤◌, ◌^◌, IfOk, length};
ghost use Rattle.al_board.specs.Fits.{AreFit};
ghost use Rattle.al_board.specs.Piles.{on_pile, IsPileFor};
ghost use Rattle.al_board.specs.Seen.{view, IsPassOf, lane_count, task_of};
ghost use Rattle.al_board.specs.Views.{HasPutAll};

use crate::marks::{Mark, Marker, is_whole};
use al_board::{Board, Helped, Pile, fill_next, work, work_and_lay};
use sqlite_items::Items;
use std::alloc::{AllocError, Global};
use std::test::Fail;

fn mark_of(lane: u32) -> Mark
    ensures { result.value ≡ 2 * lane + 1 }
{
    Mark {
        value: 2 * lane as u64 + 1,
    }
}

// One pass fills a whole board; it has the whole share when it ends.
fn fill(alloc: Global, lanes: u32) -> Result<Items<Mark>, AllocError>
    requires { (1 ≤ lanes) × (lanes ≤ 1024) }
    ensures each { IfOk result (λ v. length v ≡ lanes) }
    ensures fit { IfOk result (λ v. AreFit (λ lane piece. piece.value ≡ 2 * lane + 1) v) }
{
    let (board, mut pass) = Board::<Mark>::new(alloc, lanes, lanes)?;
    work(&board, &mut pass, &Marker { lanes, poor: lanes })?;
    Ok(board.close(pass))
}

#[test]
fn boards_of_any_size(rt: HostRuntime) -> Result<(), Fail> {
    for lanes in [1, 2, 1024] {
        assert!(rt; is_whole(fill(rt.alloc(), lanes)?.as_slice(), lanes));
    }
    Ok(())
}

#[test]
fn two_passes_draw_and_join(rt: HostRuntime) -> Result<(), Fail> {
    let (board, mut one) = Board::<Mark>::new(rt.alloc(), 2, 2)?;
    assert!(rt; board.allowance(&one) == 1 << 63);
    let mut two = board.split(&mut one);
    assert!(rt; board.allowance(&one) == 1 << 62 && board.allowance(&two) == 1 << 62);
    let second = board.draw(&mut two).expect(&rt, "a lane");
    let first = board.draw(&mut one).expect(&rt, "a lane");
    board.put(&mut one, first, mark_of(first));
    board.put(&mut two, second, mark_of(second));
    board.join(&mut one, two);
    assert!(rt; board.filled(&one) == 2);
    assert!(rt; is_whole(board.close(one).as_slice(), 2));
    Ok(())
}

#[test]
fn a_pass_is_dropped(rt: HostRuntime) -> Result<(), Fail> {
    let (board, mut one) = Board::<Mark>::new(rt.alloc(), 3, 3)?;
    let mut two = board.split(&mut one);
    assert!(rt; board.draw(&mut two) == Some(0));
    drop(two);
    let maker = Marker { lanes: 3, poor: 3 };
    assert!(rt; fill_next(&board, &mut one, &maker)? == Some(1));
    work(&board, &mut one, &maker)?;
    assert!(rt; board.filled(&one) == 2);
    Ok(())
}

#[test]
fn lays_in_lane_order(rt: HostRuntime) -> Result<(), Fail> {
    let pile = Pile::new(rt.alloc(), 3)?;
    let (board, mut one) = Board::<Mark>::with_shelf(rt.alloc(), 3, 3, pile)?;
    let mut two = board.split(&mut one);
    let mut three = board.split(&mut two);
    let a = board.draw(&mut one).expect(&rt, "a lane");
    let b = board.draw(&mut two).expect(&rt, "a lane");
    let c = board.draw(&mut three).expect(&rt, "a lane");
    assert!(rt; a == 0 && b == 1 && c == 2);
    board.put(&mut three, c, mark_of(c));
    assert_eq!(rt; board.advance(&mut three), Helped::Advanced(0));
    board.put(&mut one, a, mark_of(a));
    assert_eq!(rt; board.advance(&mut one), Helped::Advanced(1));
    board.put(&mut two, b, mark_of(b));
    assert_eq!(rt; board.advance(&mut two), Helped::Advanced(3));
    board.join(&mut one, two);
    board.join(&mut one, three);
    assert!(rt; board.filled(&one) == 3);
    assert!(rt; is_whole(board.close_shelf(one).into_pieces().as_slice(), 3));
    Ok(())
}

// One pass fills a whole board and lays the pieces.
fn fill_shelf(alloc: Global, lanes: u32) -> Result<Vec<Mark>, AllocError>
    requires { (1 ≤ lanes) × (lanes ≤ 64) }
    ensures each { IfOk result (λ v. length v.items ≡ lanes) }
    ensures fit { IfOk result (λ v. AreFit (λ lane piece. piece.value ≡ 2 * lane + 1) v.items) }
{
    let pile = Pile::new(alloc, lanes)?;
    let (board, mut pass) = Board::<Mark>::with_shelf(alloc, lanes, lanes, pile)?;
    work_and_lay(&board, &mut pass, &Marker { lanes, poor: lanes })?;
    Ok(board.close_shelf(pass).into_vec())
}

#[test]
fn shelves_of_any_size(rt: HostRuntime) -> Result<(), Fail> {
    for lanes in [1, 2, 64] {
        let pieces = fill_shelf(rt.alloc(), lanes)?;
        assert!(rt; is_whole(pieces.as_slice(), lanes));
    }
    Ok(())
}

#[test]
fn closes_into_a_vector(rt: HostRuntime) -> Result<(), Fail> {
    let (board, mut pass) = Board::<Mark>::new(rt.alloc(), 3, 3)?;
    assert!(rt; !board.shelved());
    work(&board, &mut pass, &Marker { lanes: 3, poor: 3 })?;
    let pieces = board.close_vec(pass);
    assert!(rt; is_whole(pieces.as_slice(), 3));
    Ok(())
}
