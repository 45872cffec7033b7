//! Laws over the definitions. Each is the contract of a function that takes no value.

ghost use Rattle.std.specs.Prelude.{ℕ};
ghost use Rattle.gba_io.specs.Board.{BoardPasses, QuietBoard, UnheardBoard};
ghost use Rattle.gba_io.specs.Cable.{EndsStayFit, WritesKeepEnds};
ghost use Rattle.gba_io.specs.Keeping.{WritesKeepTime};
ghost use Rattle.gba_io.specs.declared.board.Board.{Board};

use gba_devices::laws::{cycle_keeps, writes_keep};
use gba_serial::laws::{ends_apart, stays_seated};

/// A write leaves the clock, the picture's place and the lines that are drawn.
pub fn writes_keep_time()
    ensures { WritesKeepTime }
{
    writes_keep();
}

/// Cycles leave the memories, move the devices, and make the frames and the pairs of samples that the clock says; those
/// in which nothing is made only move the devices, and those that draw no line, where samples aren't kept, count the
/// pairs beside.
pub fn board_passes()
    ensures all { (cycles : ℕ) (b : Board) → BoardPasses cycles b }
    ensures quiet { QuietBoard }
    ensures unheard { UnheardBoard }
{
    cycle_keeps();
}

/// Signals and ends leave room for all transfers that end before the end of the room.
pub fn ends_stay_fit()
    ensures { EndsStayFit }
{
    ends_apart();
    stays_seated();
}

/// A write brings no end that is nearer than 512 cycles.
pub fn writes_keep_ends()
    ensures { WritesKeepEnds }
{
    ends_apart();
    stays_seated();
}
