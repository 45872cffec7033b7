#![tactic(auto)]
//! The Thumb instruction table: what operation a halfword is, and what halfword an operation is.

ghost use Rattle.std.specs.Prelude.{◌≡◌, IfSome};
ghost use Rattle.gba_terms.specs.Bits.{field};
ghost use Rattle.gba_thumb_table.specs.Limits.{Fits};
ghost use Rattle.gba_thumb_table.specs.Table.{operation, operation_of};

mod encoding;
mod fields;
mod format;
pub mod laws;
mod limits;
mod operation;

pub use encoding::encode;
use format::{Format, format_of};
pub use gba_arm_table::EncodeError;
pub use operation::ThumbOp;

/// The operation of a halfword, by the first row of the table that fits it. None is a halfword without an operation: it
/// takes the Undefined trap. Every field of the operation fits its bits, a register is below 8 (GBATEK, THUMB.1 to
/// THUMB.19).
pub fn decode(half: u16) -> Option<ThumbOp>
    ensures operation { result ≡ operation half }
    ensures fits { IfSome result Fits }
{
    let half = u32::from(half);
    of_format(format_of(half), half)
}

/// The operation of a halfword of this format.
fn of_format(format: Format, half: u32) -> Option<ThumbOp>
    ensures { result ≡ operation_of format (field half) }
{
    match format {
        Format::Format1 => Some(fields::format1(half)),
        Format::Format2 => Some(fields::format2(half)),
        Format::Format3 => Some(fields::format3(half)),
        Format::Format4 => Some(fields::format4(half)),
        Format::Format5 => Some(fields::format5(half)),
        Format::Format6 => Some(fields::format6(half)),
        Format::Format7 => Some(fields::format7(half)),
        Format::Format8 => Some(fields::format8(half)),
        Format::Format9 => Some(fields::format9(half)),
        Format::Format10 => Some(fields::format10(half)),
        Format::Format11 => Some(fields::format11(half)),
        Format::Format12 => Some(fields::format12(half)),
        Format::Format13 => Some(fields::format13(half)),
        Format::Format14 => Some(fields::format14(half)),
        Format::Format15 => Some(fields::format15(half)),
        Format::Format16 => Some(fields::format16(half)),
        Format::Format17 => Some(fields::format17(half)),
        Format::Format18 => Some(fields::format18(half)),
        Format::Format19 => Some(fields::format19(half)),
        Format::Undefined => None,
    }
}
