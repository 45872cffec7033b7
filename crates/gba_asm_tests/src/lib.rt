#![tactic(auto)]
//! Tests of the assembler: statements to their words, refusals, and whole sources.

#[cfg(test)]
mod arm;
#[cfg(test)]
mod assembled;
#[cfg(test)]
mod refusals;
#[cfg(test)]
mod sources;
#[cfg(test)]
mod thumb;
