#![tactic(auto)]
//! Tests of consoles on a cable by the top call: whole runs with all their files, lanes that meet, a thousand
//! schedules, runs in segments, and reads and calls that fail.

#[cfg(test)]
mod failing;
#[cfg(test)]
mod laws;
#[cfg(test)]
mod linked;
#[cfg(test)]
mod meeting;
#[cfg(test)]
mod schedules;
#[cfg(test)]
mod segmented;
