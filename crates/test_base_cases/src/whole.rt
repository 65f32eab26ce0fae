//! Checks over all code points, from the folding of each single one.
ghost use Rattle.std.specs.Prelude.{◌≤◌, All};

use crate::utf8::first_byte;
use regress_base::bytesearch::ByteBitmap;
use regress_base::codepointset::{CODE_POINT_MAX, CodePointSet, Interval};
use regress_base::util::add_utf8_first_bytes_to_bitmap;
use regress_unicode::{Tables, add_icase_code_points, fold, unfold_char};
use std::alloc::{AllocError, Global};
use test_notation::{Call, Fault, Promise};

/// Makes the call with this name, and returns whether there is one.
pub(crate) fn response(call: &mut Call, name: &str, tables: &Tables) -> bool {
    match name {
        "all" => check_all(call, tables),
        "first_bytes_between" => first_bytes_between(call),
        "closed_between" => closed_between(call, tables),
        _ => return false,
    }
    call.say("holds");
    true
}

/// Checks that folding is idempotent, that it maps each code point of planes 15 and 16 to itself, or that unfolding a
/// code point yields exactly the code points with the same folded character.
fn check_all(call: &mut Call, tables: &Tables) {
    match call.field() {
        "idempotent" => {
            for point in 0..=CODE_POINT_MAX {
                let mapped = fold(point, tables);
                call.check(fold(mapped, tables) == mapped, Promise::Idempotent);
            }
        }
        "planes 15 and 16 are unchanged" => {
            for point in 0xF0000..=CODE_POINT_MAX {
                call.check(fold(point, tables) == point, Promise::Idempotent);
            }
        }
        "unfolding" => check_unfolding(call, tables),
        _ => call.fail(Fault::Line),
    }
}

fn check_unfolding(call: &mut Call, tables: &Tables) {
    let alloc = call.alloc();
    let moves = call.made(moves(alloc, tables), Vec::new(alloc));
    for point in 0..=CODE_POINT_MAX {
        let unfolded = call.made(unfold_char(alloc, point, tables), Vec::new(alloc));
        let expected = unfold_to(alloc, &moves, fold(point, tables));
        let expected = call.made(expected, Vec::new(alloc));
        call.check(unfolded == expected, Promise::Unfolded);
    }
}

/// A code point, and the different one that it folds to.
#[derive(Clone, Copy)]
struct Move {
    from: u32,
    to: u32,
}

/// Returns the code points that do not fold to themselves, ascending.
fn moves(alloc: Global, tables: &Tables) -> Result<Vec<Move>, AllocError> {
    let mut moves = Vec::new(alloc);
    for from in 0..=CODE_POINT_MAX {
        let to = fold(from, tables);
        if to != from {
            moves.push(Move { from, to })?;
        }
    }
    Ok(moves)
}

/// Returns a folded character and the code points that fold to it, ascending.
fn unfold_to(alloc: Global, moves: &[Move], mapped: u32) -> Result<Vec<u32>, AllocError> {
    let mut points = vec![in alloc; mapped]?;
    for Move { from, to } in moves {
        if *to == mapped {
            points.push(*from)?;
        }
    }
    points.sort_unstable();
    Ok(points)
}

/// Checks that the first bytes of each interval between two bounds are those of its single code points.
fn first_bytes_between(call: &mut Call) {
    let bounds = call.points();
    for first in &bounds {
        let mut expected = ByteBitmap::default();
        let mut from = *first;
        for last in &bounds {
            if first <= last && *last <= CODE_POINT_MAX {
                for point in from..=*last {
                    expected.set(first_byte(point));
                }
                from = *last;
                let mut bitmap = ByteBitmap::default();
                add_utf8_first_bytes_to_bitmap(Interval::new(*first, *last), &mut bitmap);
                call.check(bitmap == expected, Promise::FirstBytes);
            }
        }
    }
}

/// Checks that the closure of each interval between two bounds has exactly the code points with the folded character of
/// a member.
fn closed_between(call: &mut Call, tables: &Tables) {
    let alloc = call.alloc();
    let bounds = call.points();
    let moves = call.made(moves(alloc, tables), Vec::new(alloc));
    for first in &bounds {
        for last in &bounds {
            if first <= last && *last <= CODE_POINT_MAX {
                check_closure(call, tables, &moves, Interval::new(*first, *last));
            }
        }
    }
}

fn check_closure(call: &mut Call, tables: &Tables, moves: &[Move], interval: Interval) {
    let set = set_of(call, interval);
    let mut expected = set_of(call, interval);
    let closed = add_icase_code_points(set, tables);
    let closed = call.made(closed, CodePointSet::new(call.alloc()));
    add_targets(call, &mut expected, interval, moves);
    call.check(closed == expected, Promise::Closed);
}

fn set_of(call: &mut Call, interval: Interval) -> CodePointSet {
    let mut set = CodePointSet::new(call.alloc());
    call.done(set.add(interval));
    set
}

/// Adds the code points with the folded character of one of the interval's code points.
fn add_targets(call: &mut Call, closure: &mut CodePointSet, interval: Interval, moves: &[Move]) {
    let alloc = call.alloc();
    for Move { from, to } in moves {
        if interval.contains(*from) || interval.contains(*to) {
            let points = call.made(unfold_to(alloc, moves, *to), Vec::new(alloc));
            for point in &points {
                if *point <= CODE_POINT_MAX {
                    call.done(closure.add_one(*point));
                }
            }
        }
    }
}
