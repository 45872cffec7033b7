//! A whole frozen file.

ghost use Rattle.std.specs.Prelude.{◌≡◌, ◌≤◌, ◌^◌, IfErr, IfOk, Ok};
ghost use Rattle.gba_thaw.specs.Cut.{backup_at, setup_of as setup_for, thaw_of};
ghost use Rattle.gba_thaw.specs.Refused.{IsRefusal};
ghost use Rattle.std.specs.Prelude.{length, [], ◌∷◌};

use crate::cut::go_on;
use gba_console::Console;
use gba_filling::Filling;
use gba_frozen::{Setup, ThawError, ThawKind};
use gba_frozen_read::read_frozen;
use gba_image::Backup;
use link_core::Cut;
use std::alloc::Global;

/// Why no run goes on from a frozen file: the first refused line, or want of memory.
#[derive(Clone, Copy, Debug, PartialEq, Eq)]
pub enum ThawRefused {
    Frozen(ThawError),
    NoMemory,
}

/// What keeps the saves of a player's console.
fn backup_of(consoles: &[Console], player: usize) -> Backup
    ensures { result ≡ backup_at player consoles.now }
{
    match consoles.get(player) {
        Some(console) => console.board().core.backup(),
        None => Backup::Sram,
    }
}

/// What a frozen file is read for.
fn setup_of(consoles: &[Console], digest: &[u8; 32], until: u64) -> Setup
    requires { length consoles.now ≤ 4 }
    ensures { result ≡ setup_for digest.now until consoles.now }
{
    Setup {
        consoles: consoles.len() as u32,
        backups: [
            backup_of(consoles, 0),
            backup_of(consoles, 1),
            backup_of(consoles, 2),
            backup_of(consoles, 3),
        ],
        digest: *digest,
        until,
    }
}

/// Thaws a frozen file of at most 134,217,728 bytes: the consoles of the job of this digest and of so many cycles,
/// which stand at their start on their cable, with what the file says of them and with the signals that it says are on
/// their way. Refused is the first line that isn't one that may stand there, and at the last line a whole from which no
/// run can go on; a file that is too long has line 0, one that ends too early the number of its lines plus 1. The start
/// is dropped then. The digest is the SHA-256 of the job's log without the digests of its outputs.
///
/// The consoles keep their images, the changes of their keys, the clocks below which they are off, and which lists they
/// keep; the lists are empty. They step no further before their lists are emptied for a segment.
pub fn thaw(
    alloc: Global,
    bytes: &[u8],
    digest: &[u8; 32],
    until: u64,
    start: Cut<Console>,
) -> Result<Cut<Console>, ThawRefused>
    requires few { until ≤ 2 ^ 39 }
    ensures thawed { IfOk result (λ cut. thaw_of digest.now until start bytes.now ≡ Ok cut) }
    ensures refused { IfErr result (IsRefusal (thaw_of digest.now until start bytes.now)) }
{
    let setup = setup_of(start.nodes(), digest, until);
    let Ok(mut filling) = Filling::new(alloc, &setup) else {
        return Err(ThawRefused::NoMemory);
    };
    let lines = match read_frozen(&setup, bytes, &mut filling) {
        Ok(lines) => lines,
        Err(refused) => return Err(ThawRefused::Frozen(refused)),
    };
    match go_on(start, filling.consoles(), filling.signals(), until) {
        Some(cut) => Ok(cut),
        None => Err(ThawRefused::Frozen(ThawError {
            line: lines,
            kind: ThawKind::Unsound,
        })),
    }
}
