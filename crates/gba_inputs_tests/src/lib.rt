#![tactic(auto)]
//! Tests of the inputs of jobs: what is read, what is refused and in which order, and the log's replay.

#[cfg(test)]
mod inputs;
