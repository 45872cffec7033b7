//! What a move of a table shows.

use std::fmt::Debug;
use std::process::Abort;

/// It is this.
pub(crate) fn is<R: Abort, T: Copy + PartialEq + Debug>(rt: &R, what: &str, got: T, wanted: T) {
    assert_eq!(rt; got, wanted, "{what}");
}

/// A move of a case shows what it must.
pub(crate) fn shows<R: Abort>(rt: &R, case: &str, place: usize, shown: Shown) {
    let Shown { got, wanted } = shown;
    is(rt, case, (place, got), (place, wanted));
}

/// What a move shows, and what it must show: up to three numbers.
#[derive(Clone, Copy)]
pub(crate) struct Shown {
    pub got: [u64; 3],
    pub wanted: [u64; 3],
}

/// A move that shows nothing.
pub(crate) const NOTHING: Shown = Shown {
    got: [0; 3],
    wanted: [0; 3],
};

/// One number.
pub(crate) fn number(got: u64, wanted: u64) -> Shown {
    Shown {
        got: [got, 0, 0],
        wanted: [wanted, 0, 0],
    }
}

/// 1 where it holds.
pub(crate) fn flag(got: bool, wanted: bool) -> Shown {
    number(u64::from(got), u64::from(wanted))
}

/// Two numbers.
pub(crate) fn two(got: (u32, u32), wanted: (u32, u32)) -> Shown {
    Shown {
        got: [u64::from(got.0), u64::from(got.1), 0],
        wanted: [u64::from(wanted.0), u64::from(wanted.1), 0],
    }
}
