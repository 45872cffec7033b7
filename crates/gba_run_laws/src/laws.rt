//! What a console keeps to, from reset on.

ghost use Rattle.gba_run_laws.specs.Holding.{StepsHold, StepsLeaveTheRest};

use gba_console::laws::{counts_what_it_keeps, steps_pass};
use gba_device_laws::laws::{devices_stay, serial_stays};
use gba_devices::laws::writes_keep;
use gba_exec_laws::laws::{halfwords_stay_sound, words_stay_sound};
use gba_io::Core;
use gba_io::laws::{board_passes, writes_keep_ends, writes_keep_time};
use gba_mem::laws::backups_stay_sound;
use gba_serial::laws::{ends_apart, stays_seated};

/// A console at reset keeps to its rules, and so does one after each step, at clocks of a run.
pub fn steps_hold()
    ensures { StepsHold }
{
    words_stay_sound::<Core>();
    halfwords_stay_sound::<Core>();
    backups_stay_sound();
    board_passes();
    counts_what_it_keeps();
    devices_stay();
    serial_stays();
    steps_pass();
    writes_keep();
    ends_apart();
    stays_seated();
    writes_keep_ends();
    writes_keep_time();
}

/// A step leaves the images, what the saves are kept in, the seat, the changes of the keys, the clock from which on the
/// console is on, and what is kept of what it makes.
pub fn steps_leave_the_rest()
    ensures { StepsLeaveTheRest }
{
    backups_stay_sound();
    board_passes();
    counts_what_it_keeps();
    stays_seated();
}
