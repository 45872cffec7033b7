//! Laws over the definitions. Each is the contract of a function that takes no value.

ghost use Rattle.std.specs.Prelude.{ℕ};
ghost use Rattle.gba_devices.specs.Cycles.{CyclePasses, CyclesPass, SkipsCycles};
ghost use Rattle.gba_devices.specs.Keeping.{CalmHasBegun, WritesKeep};
ghost use Rattle.gba_devices.specs.State.{Devices};

use gba_ppu_reg::laws::quiet_places;
use gba_timer::laws::quiet_marks;

/// Within the quiet cycles skipping is stepping, and nothing is made.
pub fn skips_cycles()
    ensures { SkipsCycles }
{
    quiet_marks();
    quiet_places();
}

/// Cycles raise the clock by their number, and leave WAITCNT and the prices.
pub fn cycles_pass()
    ensures { (count : ℕ) (d : Devices) → CyclesPass count d }
{}

/// The same of one cycle, in which the picture's place moves by a dot.
pub fn cycle_keeps()
    ensures { (d : Devices) → CyclePasses d }
{}

/// A write of a register leaves the clock, the picture's place and the prices of this step.
pub fn writes_keep()
    ensures { WritesKeep }
{}

/// Calm and idle devices have the prices of this step already.
pub fn calm_has_begun()
    ensures { CalmHasBegun }
{}
