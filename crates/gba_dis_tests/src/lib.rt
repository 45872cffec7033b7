#![tactic(auto)]
//! Tests of the disassembler: words and halfwords to their lines, whole listings, and listings assembled back.

#[cfg(test)]
mod arm;
#[cfg(test)]
mod listed;
#[cfg(test)]
mod listings;
#[cfg(test)]
mod lone;
#[cfg(test)]
mod thumb;
