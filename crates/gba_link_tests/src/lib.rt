#![tactic(auto)]
//! Tests of the top call over files in memory, and calls of it for other tests.

mod calls;
mod content;
mod logging;
mod programs;

pub use calls::{Answer, Failing, call, call_into, call_through, call_with, image_of, stored};
pub use content::{Content, Expected, bytes_of, is_as_expected, stored_all};
pub use logging::LoggingSink;
pub use programs::{AWAITS_MULTI, STARTS_MULTI};

#[cfg(test)]
mod freezing;
#[cfg(test)]
mod resuming;
#[cfg(test)]
mod segments;
#[cfg(test)]
mod top_call;
