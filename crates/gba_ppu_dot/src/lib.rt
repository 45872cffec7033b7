#![tactic(auto)]
//! What the layers of the picture share: their dots, a background's control, and bytes of video memory.

mod bytes;
mod control;
mod dot;
mod line;
mod paint;

pub use bytes::half_at;
pub use control::BackgroundControl;
pub use dot::{Dot, DotKind};
pub use line::clear_line;
pub use paint::{
    BackgroundPaints, CLEAR_PAINT, clear_paints, colour_of, entry_colour, paint_line, paint_of,
};
