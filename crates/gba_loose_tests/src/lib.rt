#![tactic(auto)]
//! Tests of devices that are made of a console's numbers.

#[cfg(test)]
mod cable;
#[cfg(test)]
mod devices;
#[cfg(test)]
mod made;
#[cfg(test)]
mod reading;
