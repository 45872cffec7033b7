//! Numbers among bytes, the lowest byte first.

ghost use Rattle.std.specs.Prelude.{◌≡◌, ◌≤◌, ◌+◌, length};
ghost use Rattle.gba_bus.specs.Widths.{size};
ghost use Rattle.gba_mem.specs.Loads.{number_of};
ghost use Rattle.gba_mem.specs.Wide.{put_both, put_number, wide_number};

use gba_bus::Width;
use gba_word::bits;

/// The number of an access at a place.
pub(crate) fn number(bytes: &[u8], width: Width, place: usize) -> u32
    requires { place + size width ≤ length bytes.now }
    ensures { result ≡ wide_number bytes.now width place }
{
    match width {
        Width::Byte => u32::from(bytes[place]),
        Width::Half => u32::from(u16::from_le_bytes([bytes[place], bytes[place + 1]])),
        Width::Word => u32::from_le_bytes([
            bytes[place],
            bytes[place + 1],
            bytes[place + 2],
            bytes[place + 3],
        ]),
    }
}

/// The number with this byte at every place.
pub(crate) fn repeated(byte: u8, width: Width) -> u32
    ensures { result ≡ number_of (λ _. byte) width 0 }
{
    match width {
        Width::Byte => u32::from(byte),
        Width::Half => u32::from(u16::from_le_bytes([byte, byte])),
        Width::Word => u32::from_le_bytes([byte, byte, byte, byte]),
    }
}

/// Writes the low bytes of a number at a place.
pub(crate) fn put(bytes: &mut [u8], width: Width, place: usize, value: u32)
    requires { place + size width ≤ length bytes.old }
    ensures { bytes.new ≡ put_number width bytes.old place value }
{
    match width {
        Width::Byte => bytes[place] = bits(value, 0, 8) as u8,
        Width::Half => {
            bytes[place] = bits(value, 0, 8) as u8;
            bytes[place + 1] = bits(value, 8, 8) as u8;
        }
        Width::Word => {
            bytes[place] = bits(value, 0, 8) as u8;
            bytes[place + 1] = bits(value, 8, 8) as u8;
            bytes[place + 2] = bits(value, 16, 8) as u8;
            bytes[place + 3] = bits(value, 24, 8) as u8;
        }
    }
}

/// Writes the low byte of a number to both bytes of the halfword at a place.
pub(crate) fn put_twice(bytes: &mut [u8], place: usize, value: u32)
    requires { place + 2 ≤ length bytes.old }
    ensures { bytes.new ≡ put_both bytes.old place value }
{
    let byte = bits(value, 0, 8) as u8;
    bytes[place] = byte;
    bytes[place + 1] = byte;
}
