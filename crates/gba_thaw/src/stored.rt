//! The bits of the I/O registers in a frozen file.

ghost use Rattle.std.specs.Prelude.{◌≡◌, ◌+◌, ◌<◌};
ghost use Rattle.gba_thaw.specs.Stored.{has_channel_bits as has_channel_bits_of, has_stored_bits as has_stored_bits_of, has_bits as has_bits_of};
ghost use Rattle.gba_thaw.specs.Stored.{has_picture_bits as has_picture_bits_of, has_other_bits as has_other_bits_of, has_sound_bits as has_sound_bits_of};

/// Whether the halfword at an offset has these bits alone.
fn has_bits(io: &[u8; 1024], offset: usize, bits: u16) -> bool
    requires { offset + 1 < 1024 }
    ensures { result ≡ has_bits_of offset bits io.now }
{
    let half = u16::from_le_bytes([io[offset], io[offset + 1]]);
    half & bits == half
}

/// Whether the registers of the picture have stored bits alone.
#[tactic(auto, unfolding(crate::specs::Stored::has_picture_bits))]
fn has_picture_bits(io: &[u8; 1024]) -> bool
    ensures { result ≡ has_picture_bits_of io.now }
{
    has_bits(io, 0x000, 0xFFF7)
        && has_bits(io, 0x002, 0)
        && has_bits(io, 0x008, 0xDFFF)
        && has_bits(io, 0x00A, 0xDFFF)
        && has_bits(io, 0x010, 0x01FF)
        && has_bits(io, 0x012, 0x01FF)
        && has_bits(io, 0x014, 0x01FF)
        && has_bits(io, 0x016, 0x01FF)
        && has_bits(io, 0x018, 0x01FF)
        && has_bits(io, 0x01A, 0x01FF)
        && has_bits(io, 0x01C, 0x01FF)
        && has_bits(io, 0x01E, 0x01FF)
        && has_bits(io, 0x02A, 0x0FFF)
        && has_bits(io, 0x02E, 0x0FFF)
        && has_bits(io, 0x03A, 0x0FFF)
        && has_bits(io, 0x03E, 0x0FFF)
        && has_bits(io, 0x048, 0x3F3F)
        && has_bits(io, 0x04A, 0x3F3F)
        && has_bits(io, 0x04C, 0)
        && has_bits(io, 0x04E, 0)
        && has_bits(io, 0x050, 0x3FFF)
        && has_bits(io, 0x052, 0x1F1F)
        && has_bits(io, 0x054, 0x001F)
}

/// Whether those of the sound have stored bits alone.
#[tactic(auto, unfolding(crate::specs::Stored::has_sound_bits))]
fn has_sound_bits(io: &[u8; 1024]) -> bool
    ensures { result ≡ has_sound_bits_of io.now }
{
    has_bits(io, 0x060, 0x007F)
        && has_bits(io, 0x064, 0x47FF)
        && has_bits(io, 0x06C, 0x47FF)
        && has_bits(io, 0x070, 0x00E0)
        && has_bits(io, 0x072, 0xE0FF)
        && has_bits(io, 0x074, 0x47FF)
        && has_bits(io, 0x078, 0xFF3F)
        && has_bits(io, 0x07C, 0x40FF)
        && has_bits(io, 0x080, 0xFF77)
        && has_bits(io, 0x082, 0x770F)
        && has_bits(io, 0x084, 0x008F)
        && has_bits(io, 0x088, 0xC3FE)
}

/// Whether those of the DMA channels have stored bits alone.
#[tactic(auto, unfolding(crate::specs::Stored::has_channel_bits))]
fn has_channel_bits(io: &[u8; 1024]) -> bool
    ensures { result ≡ has_channel_bits_of io.now }
{
    has_bits(io, 0x0B2, 0x07FF)
        && has_bits(io, 0x0B6, 0x07FF)
        && has_bits(io, 0x0B8, 0x3FFF)
        && has_bits(io, 0x0BA, 0xF7E0)
        && has_bits(io, 0x0BE, 0x0FFF)
        && has_bits(io, 0x0C2, 0x07FF)
        && has_bits(io, 0x0C4, 0x3FFF)
        && has_bits(io, 0x0C6, 0xF7E0)
        && has_bits(io, 0x0CA, 0x0FFF)
        && has_bits(io, 0x0CE, 0x07FF)
        && has_bits(io, 0x0D0, 0x3FFF)
        && has_bits(io, 0x0D2, 0xF7E0)
        && has_bits(io, 0x0D6, 0x0FFF)
        && has_bits(io, 0x0DA, 0x0FFF)
        && has_bits(io, 0x0DE, 0xFFE0)
}

/// Whether the keypad, the cable, the interrupts and the system have stored bits alone.
#[tactic(auto, unfolding(crate::specs::Stored::has_other_bits))]
fn has_other_bits(io: &[u8; 1024]) -> bool
    ensures { result ≡ has_other_bits_of io.now }
{
    has_bits(io, 0x132, 0xC3FF)
        && has_bits(io, 0x134, 0xC000)
        && has_bits(io, 0x200, 0x3FFF)
        && has_bits(io, 0x202, 0x3FFF)
        && has_bits(io, 0x204, 0x5FFF)
        && has_bits(io, 0x208, 0x0001)
        && has_bits(io, 0x300, 0x0001)
}

/// Whether all have stored bits alone.
#[tactic(auto, unfolding(crate::specs::Stored::has_stored_bits))]
pub(crate) fn has_stored_bits(io: &[u8; 1024]) -> bool
    ensures { result ≡ has_stored_bits_of io.now }
{
    has_picture_bits(io) && has_sound_bits(io) && has_channel_bits(io) && has_other_bits(io)
}
