#![tactic(auto)]
//! The commands that read one file and write another: a source is assembled, and an image is listed.

mod files;
mod listing;
mod source;

pub use files::{count_line, write_file};
pub use listing::list_image;
pub use source::assemble_source;
