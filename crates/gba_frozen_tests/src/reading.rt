//! Reading one line of a job of one console.

use gba_frozen::{Place, Setup, Slot, ThawKind, is_place, read_line};
use gba_image::Backup;
use std::process::Abort;

/// One console of a job of 1,000 cycles, with SRAM.
pub(crate) const SETUP: Setup = Setup {
    consoles: 1,
    backups: [Backup::Sram; 4],
    digest: [0x11; 32],
    until: 1000,
};

/// A place, a line that stands there, and why it is refused, if it is.
pub(crate) type Case = (Slot, &'static [u8], Option<ThawKind>);

/// What cases are about, and the cases.
pub(crate) type Cases = (&'static str, &'static [Case]);

pub(crate) const JOB: Option<ThawKind> = Some(ThawKind::Job);

pub(crate) const NUMBER: Option<ThawKind> = Some(ThawKind::Number);

pub(crate) const SPELLING: Option<ThawKind> = Some(ThawKind::Spelling);

/// Why a line is refused there, if it is.
fn refusal<R: Abort>(rt: &R, slot: Slot, line: &[u8]) -> Option<ThawKind> {
    let at = Place { player: 0, slot };
    assert!(rt; is_place(at));
    read_line(&SETUP, at, line).err()
}

/// Each line is read, or refused as its case says.
pub(crate) fn are_right<R: Abort>(rt: &R, what: &str, cases: &[Case]) {
    for &(slot, line, kind) in cases {
        assert_eq!(rt; refusal(rt, slot, line), kind, "{what}: {line:?}");
    }
}
