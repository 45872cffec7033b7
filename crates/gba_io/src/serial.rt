//! Which registers are the serial unit's.

ghost use Rattle.std.specs.Prelude.{◌≡◌};
ghost use Rattle.gba_io.specs.SerialRegisters.{is_serial};

/// Whether an offset from 04000000h is in a word of the serial unit.
pub(crate) fn is_serial(offset: u32) -> bool
    ensures { result ≡ is_serial offset }
{
    match offset - offset % 4 {
        0x120 | 0x124 | 0x128 | 0x134 => true,
        _ => false,
    }
}
