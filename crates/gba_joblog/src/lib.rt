#![tactic(auto)]
//! The job language: `Job::parse` reads a job or names the first refused line, `parse_keys` does so with a file of key
//! changes, and `Job::clash` finds an output file that would be the job or one of its inputs.
//!
//! Contracts see a [`Job`] as numbers and lists, and a name as its bytes (`specs/Job.antt`).

mod backup;
mod cable;
mod changes;
mod clash;
mod console;
mod digest;
mod draft;
mod job;
mod key_file;
mod kinds;
pub mod laws;
mod lines;
mod names;
mod operands;
mod outputs;
mod parse;
mod statement;
mod unasked;

pub use backup::backup_word;
pub use cable::{PAIRS, Pair, players_for};
pub use digest::{digest_of, digits_of};
pub use job::{FileLine, Job, JobConsole, KeyChange, OutLine};
pub use key_file::{LONGEST_KEYS, parse_keys};
pub use kinds::{JobError, JobKind, ParseRefused};
pub use names::is_name;
pub use outputs::{KINDS, OutKind, PerKind};
pub use parse::LONGEST_JOB;
