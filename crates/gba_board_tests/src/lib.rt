#![tactic(auto)]
//! Tests of a board by itself.

#[cfg(test)]
mod bench;
#[cfg(test)]
mod board;
#[cfg(test)]
mod cable;
#[cfg(test)]
mod pouring;
#[cfg(test)]
mod shown;
#[cfg(test)]
mod skipping;
