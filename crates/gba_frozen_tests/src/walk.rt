//! A small frozen file that is read line by line; with each line dropped, doubled or swapped; and cut.

use crate::files::{COUNT, DRAWN, END, MEMORY, SIGNAL, WAS, line};
use crate::reading::SETUP;
use gba_frozen::{FIRST_PLACE, Place, ThawKind, is_over, is_place, read_next};
use std::process::Abort;
use std::test::Fail;

/// A file that is read so far: how many lines, and why the last one was refused, if it was.
#[derive(Clone, Copy)]
struct Walk {
    at: Place,
    number: usize,
    refused: Option<ThawKind>,
}

/// Before the first line.
const BEGIN: Walk = Walk {
    at: FIRST_PLACE,
    number: 0,
    refused: None,
};

/// The file with one more line, where none was refused.
fn with<R: Abort>(rt: &R, walk: Walk, bytes: &[u8]) -> Walk {
    if walk.refused.is_some() {
        return walk;
    }
    let mut at = walk.at;
    assert!(rt; is_place(at));
    assert!(rt; walk.number < 1000);
    let refused = read_next(&SETUP, &mut at, bytes).err();
    Walk {
        at,
        number: walk.number + 1,
        refused,
    }
}

/// The line and the kind of its refusal, if it is refused, at its end too.
fn end<R: Abort>(rt: &R, walk: Walk) -> Option<(usize, ThawKind)> {
    assert!(rt; walk.number < 2000);
    match walk.refused {
        Some(kind) => Some((walk.number, kind)),
        None if is_over(walk.at) => None,
        None => Some((walk.number + 1, ThawKind::Spelling)),
    }
}

fn spelling(number: usize) -> Option<(usize, ThawKind)> {
    Some((number, ThawKind::Spelling))
}

/// The file up to a line, and from another one on.
fn joined<R: Abort>(rt: &R, until: usize, from: usize) -> Option<(usize, ThawKind)> {
    let mut walk = BEGIN;
    for place in 0..until {
        walk = with(rt, walk, line(place));
    }
    for place in from..COUNT {
        walk = with(rt, walk, line(place));
    }
    end(rt, walk)
}

#[test]
fn the_file_is_read(rt: HostRuntime) -> Result<(), Fail> {
    assert_eq!(rt; joined(&rt, COUNT, COUNT), None);
    Ok(())
}

/// A line of memory, a drawn line and a signal may be missing; where any other line is, the next one is refused
/// in its stead.
#[test]
fn a_line_is_missing(rt: HostRuntime) -> Result<(), Fail> {
    for place in 0..COUNT {
        let free = (MEMORY <= place && place < WAS) || (DRAWN <= place && place < END);
        let wanted = if free { None } else { spelling(place + 1) };
        assert_eq!(rt; joined(&rt, place, place + 1), wanted);
    }
    Ok(())
}

/// A signal may stand there again; any other line is refused where it does.
#[test]
fn a_line_is_doubled(rt: HostRuntime) -> Result<(), Fail> {
    for place in 0..COUNT {
        let wanted = if place == SIGNAL {
            None
        } else {
            spelling(place + 2)
        };
        assert_eq!(rt; joined(&rt, place + 1, place), wanted);
    }
    Ok(())
}

/// A file that ends early is refused at the line behind its last one.
#[test]
fn the_file_is_cut(rt: HostRuntime) -> Result<(), Fail> {
    for place in 0..COUNT {
        assert_eq!(rt; joined(&rt, place, COUNT), spelling(place + 1));
    }
    Ok(())
}

/// The file with two neighbours swapped.
fn swapped<R: Abort>(rt: &R, first: usize) -> Option<(usize, ThawKind)> {
    assert!(rt; first < COUNT);
    let mut walk = BEGIN;
    for place in 0..first {
        walk = with(rt, walk, line(place));
    }
    walk = with(rt, walk, line(first + 1));
    walk = with(rt, walk, line(first));
    for place in first + 2..COUNT {
        walk = with(rt, walk, line(place));
    }
    end(rt, walk)
}

/// The line that comes too early is refused; but where a line of memory, a drawn line or a signal may be missing, or
/// may be a higher one, it is the other line, which comes too late.
#[test]
fn lines_are_swapped(rt: HostRuntime) -> Result<(), Fail> {
    for first in 0..END {
        let late = (MEMORY <= first && first < WAS) || (DRAWN <= first && first < END);
        let wanted = if late {
            spelling(first + 2)
        } else {
            spelling(first + 1)
        };
        assert_eq!(rt; swapped(&rt, first), wanted);
    }
    Ok(())
}

/// A line that no line feed ends is refused, and so is one that has a carriage return.
#[test]
fn lines_end_in_a_line_feed(rt: HostRuntime) -> Result<(), Fail> {
    for &(bytes, refused) in &[
        (b"gbalink-frozen 1\n".as_slice(), None),
        (b"gbalink-frozen 1".as_slice(), Some(ThawKind::Spelling)),
        (b"gbalink-frozen 1\r\n".as_slice(), Some(ThawKind::Spelling)),
        (b"\n".as_slice(), Some(ThawKind::Spelling)),
        (b"".as_slice(), Some(ThawKind::Spelling)),
    ] {
        assert_eq!(rt; with(&rt, BEGIN, bytes).refused, refused);
    }
    Ok(())
}
