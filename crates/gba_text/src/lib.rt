#![tactic(auto)]
//! Texts read by lines, and lines by words and numbers, with exact refusals; and lines of reports, put together in
//! buffers of a fixed size.
//!
//! Contracts see a [`Cursor`] as the number and the bytes of the line that was given last, the words of it that aren't
//! taken yet, and the lines after it. Places in bytes don't show.

mod cursor;
mod kinds;
mod line;
mod numbers;
mod pieces;

pub use cursor::Cursor;
pub use kinds::{LineError, TextError, TextKind};
pub use line::{Line, add_text, line_of};
pub use numbers::{are_digits, are_hex_digits, ascii_text, number_in};
pub use pieces::{LONGEST_LINE, is_blank};
