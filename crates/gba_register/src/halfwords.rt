//! Accesses of every width to registers of halfwords.

ghost use Rattle.std.specs.Prelude.{◌≡◌};
ghost use Rattle.gba_bus.specs.declared.width.Width.TheVariants.{Byte, Word};
ghost use Rattle.gba_register.specs.Accesses.{loaded_by_halves, merged as merged_of, put_by, written_by_halves};

use gba_bus::Width;
use gba_word::bits;

/// Registers that are read and written by halfwords, each at its even offset. What they read and what a write leaves
/// are functions of their state.
pub trait Halfwords {
    ghost use Rattle.std.specs.Prelude.{◌≡◌, ℕ};

    /// What a write takes beside its halfword: the clock of the step, or nothing.
    type Moment: Copy;

    ghost State: { Type 0 };

    ghost state: { Self → State };

    ghost read_of: { ℕ → State → ℕ };

    ghost kept_of: { ℕ → State → ℕ };

    ghost can_write: { Self.Moment → Type 0 };

    ghost write_of: { Self.Moment → ℕ → ℕ → ℕ → State → State };

    /// What the halfword at an offset reads.
    fn half_read(&self, offset: u32) -> u16
        ensures { result ≡ read_of offset (state self.now) };

    /// What a write of one byte keeps of the halfword's other byte.
    fn half_kept(&self, offset: u32) -> u16
        ensures { result ≡ kept_of offset (state self.now) };

    /// Writes a whole halfword. `lanes` has the bits of the bytes that the access covers; the others of `value` are
    /// what `half_kept` tells.
    fn half_write(&mut self, moment: Self::Moment, offset: u32, value: u16, lanes: u16)
        requires { can_write moment }
        ensures { state self.new ≡ write_of moment offset value lanes (state self.old) };
}

/// A halfword of which the bits in `lanes` are written, and the others are kept.
fn merged(kept: u16, value: u16, lanes: u16) -> u16
    ensures { result ≡ merged_of kept value lanes }
{
    kept & !lanes | value & lanes
}

/// What an access reads: a byte, a halfword or a word at its aligned offset, with zeros above its width.
#[tactic(auto, unfolding(crate::specs::Accesses::half_of))]
pub fn load<D: Halfwords>(device: &D, offset: u32, width: Width) -> u32
    ensures { result ≡ loaded_by_halves (λ place. D.read_of place (D.state device.now)) offset width }
{
    match width {
        Width::Byte => bits(
            u32::from(device.half_read(offset - offset % 2)),
            8 * (offset % 2),
            8,
        ),
        Width::Half => u32::from(device.half_read(offset - offset % 2)),
        Width::Word => {
            let low = u32::from(device.half_read(offset - offset % 4));
            let high = u32::from(device.half_read(offset - offset % 4 + 2));
            low + 0x1_0000 * high
        }
    }
}

/// Writes the bytes of a halfword that `lanes` has.
fn put<D: Halfwords>(device: &mut D, moment: D::Moment, offset: u32, value: u16, lanes: u16)
    requires { D.can_write moment }
    ensures { D.state device.new
        ≡ put_by D.kept_of (D.write_of moment) offset value lanes (D.state device.old) }
{
    let whole = merged(device.half_kept(offset), value, lanes);
    device.half_write(moment, offset, whole, lanes);
}

fn store_byte<D: Halfwords>(device: &mut D, moment: D::Moment, offset: u32, value: u32)
    requires { D.can_write moment }
    ensures { D.state device.new
        ≡ written_by_halves (put_by D.kept_of (D.write_of moment)) offset Byte value (D.state device.old) }
{
    let byte = bits(value, 0, 8) as u16;
    if offset % 2 == 0 {
        put(device, moment, offset, byte, 0x00FF);
    } else {
        put(device, moment, offset - 1, 0x100 * byte, 0xFF00);
    }
}

fn store_word<D: Halfwords>(device: &mut D, moment: D::Moment, offset: u32, value: u32)
    requires { D.can_write moment }
    ensures { D.state device.new
        ≡ written_by_halves (put_by D.kept_of (D.write_of moment)) offset Word value (D.state device.old) }
{
    let low = offset - offset % 4;
    put(device, moment, low, bits(value, 0, 16) as u16, 0xFFFF);
    put(device, moment, low + 2, bits(value, 16, 16) as u16, 0xFFFF);
}

/// Writes the low bits of a value, as many as the width has, at the aligned offset. A word is two halfwords, the
/// lower first.
pub fn store<D: Halfwords>(device: &mut D, moment: D::Moment, offset: u32, width: Width, value: u32)
    requires { D.can_write moment }
    ensures { D.state device.new
        ≡ written_by_halves (put_by D.kept_of (D.write_of moment)) offset width value (D.state device.old) }
{
    match width {
        Width::Byte => store_byte(device, moment, offset, value),
        Width::Half => put(
            device,
            moment,
            offset - offset % 2,
            bits(value, 0, 16) as u16,
            0xFFFF,
        ),
        Width::Word => store_word(device, moment, offset, value),
    }
}
