//! Bytes of video memory.

ghost use Rattle.std.specs.Prelude.{◌≡◌, ◌+◌, ◌<◌, length};
ghost use Rattle.gba_ppu_dot.specs.Bytes.{half_at as half_in};

/// The halfword at an offset, its low byte first.
pub fn half_at(bytes: &[u8], offset: usize) -> u16
    requires { offset + 1 < length bytes.now }
    ensures { result ≡ half_in bytes.now offset }
{
    u16::from(bytes[offset]) + 0x100 * u16::from(bytes[offset + 1])
}
