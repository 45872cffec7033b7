#![tactic(auto)]
//! Tests of consoles that are being filled, and of what the lines of a frozen file leave of a job's consoles.

#[cfg(test)]
mod files;
#[cfg(test)]
mod filled;
#[cfg(test)]
mod setting;
