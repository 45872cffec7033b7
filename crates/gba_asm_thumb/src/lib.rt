#![tactic(auto)]
//! Thumb statements of an assembly source: their names, their operands, and the operations that they stand for.

mod forms;
mod names;
mod placing;
mod statement;

pub use forms::thumb_statement;
pub use placing::ThumbOps;
pub use statement::ThumbStatement;
