#![tactic(auto)]
//! Tests of whole consoles: by themselves, and on a cable, joined by hand.

#[cfg(test)]
mod cable;
#[cfg(test)]
mod console;
#[cfg(test)]
mod course;
#[cfg(test)]
mod flash;
#[cfg(test)]
mod off;
#[cfg(test)]
mod picture;
#[cfg(test)]
mod play;
#[cfg(test)]
mod pouring;
#[cfg(test)]
mod segments;
#[cfg(test)]
mod told;
#[cfg(test)]
mod transfers;
