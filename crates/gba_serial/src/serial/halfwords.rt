//! The registers by halfwords, of which accesses of every width are made.

use super::Serial;
use gba_register::Halfwords;

impl Halfwords for Serial {
    ghost use Rattle.std.specs.Prelude.{◌<◌, ◌^◌};
    ghost use Rattle.gba_serial.specs.Registers.{serial_kept, serial_read};
    ghost use Rattle.gba_serial.specs.SerialUnit.{SerialUnit};
    ghost use Rattle.gba_serial.specs.Write.{half_written};

    /// The clock at which the step begins that writes.
    type Moment = u64;

    ghost State = { SerialUnit };

    ghost state = { λ u. u };

    ghost read_of = { serial_read };

    ghost kept_of = { serial_kept };

    ghost can_write = { λ clock. clock < 2 ^ 40 };

    ghost write_of = { half_written };

    fn half_read(&self, offset: u32) -> u16 {
        self.read(offset)
    }

    fn half_kept(&self, offset: u32) -> u16 {
        self.kept(offset)
    }

    fn half_write(&mut self, clock: u64, offset: u32, value: u16, _: u16) {
        self.write(clock, offset, value);
    }
}
