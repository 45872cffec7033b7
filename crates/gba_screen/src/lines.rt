//! A line as bytes.

ghost use Rattle.std.specs.Prelude.{◌≡◌, ◌<◌, length};
ghost use Rattle.gba_screen.specs.Lines.{colours_bytes, line_bytes};

use gba_mem::Memory;
use gba_ppu_mix::mix_line;
use gba_ppu_reg::PictureRegisters;

/// Eight colours as bytes, the low one of each first.
#[inline(always)]
fn bytes_of_eight(colours: &[u16]) -> [u8; 16]
    requires { length colours.now ≡ 8 }
    ensures { result ≡ colours_bytes colours.now }
{
    let [a, b] = colours[0].to_le_bytes();
    let [c, d] = colours[1].to_le_bytes();
    let [e, f] = colours[2].to_le_bytes();
    let [g, h] = colours[3].to_le_bytes();
    let [i, j] = colours[4].to_le_bytes();
    let [k, l] = colours[5].to_le_bytes();
    let [m, n] = colours[6].to_le_bytes();
    let [o, p] = colours[7].to_le_bytes();
    [a, b, c, d, e, f, g, h, i, j, k, l, m, n, o, p]
}

/// Makes these the bytes of a line's colours, eight colours at a time.
fn spell_line(colours: &[u16], bytes: &mut [u8; 480])
    requires { length colours.now ≡ 240 }
    ensures { bytes.new ≡ colours_bytes colours.now }
{
    for part in 0..30 {
        let eight = bytes_of_eight(&colours[8 * part..8 * part + 8]);
        bytes[16 * part..16 * part + 16].copy_from_slice(&eight);
    }
}

/// Draws a line by registers and memories as they are.
#[inline(never)]
pub(crate) fn draw(r: &PictureRegisters, memory: &Memory, line: u32, bytes: &mut [u8; 480])
    requires { line < 160 }
    ensures { bytes.new ≡ line_bytes r.now memory.now line }
{
    let mut colours = [0; 240];
    mix_line(
        r,
        memory.palette(),
        memory.vram(),
        memory.oam(),
        line,
        &mut colours,
    );
    spell_line(&colours, bytes);
}
