#![tactic(auto)]
//! A command as one plan of reads and one list of calls of the sink: what is read, in which order, with each cause
//! of a refusal; how the reads ended; what is written; and what is answered; and the words of the commands. It
//! knows no console.

mod answering;
mod cause;
pub mod laws;
mod outputs;
mod reading;
mod refusal;
mod words;
mod writing;

pub use answering::{answer, close_stopped, close_written};
pub use cause::Cause;
pub use outputs::{OutputFile, Outputs};
pub use reading::read_file;
pub use refusal::{Name, Refusal, name_in_report};
pub use words::{
    Command, FileWords, FreezeWords, GenerateWords, ResumeWords, RunWords, TraceWords, command_of,
};
pub use writing::{WriteStop, append, append_files, create, create_files};
