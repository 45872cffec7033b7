#![tactic(auto)]
//! Tests of the outside: the real store and sink, and the chosen failures of those in memory.

#[cfg(test)]
mod load;
#[cfg(test)]
mod outside;
