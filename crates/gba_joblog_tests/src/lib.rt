#![tactic(auto)]
//! Tests of texts by lines, and of the job language: jobs and key files that are read, those that are refused,
//! clashes, and logs.

#[cfg(test)]
mod clash;
#[cfg(test)]
mod helpers;
#[cfg(test)]
mod keys;
#[cfg(test)]
mod log;
#[cfg(test)]
mod reading;
#[cfg(test)]
mod refusals;
#[cfg(test)]
mod text;
