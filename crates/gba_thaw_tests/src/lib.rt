#![tactic(auto)]
//! Tests of consoles that go on from frozen files, which are made by hand, line by line: what is accepted, and why
//! another one isn't.

#[cfg(test)]
mod accepted;
#[cfg(test)]
mod cases;
#[cfg(test)]
mod laws;
#[cfg(test)]
mod playing;
#[cfg(test)]
mod refused;
#[cfg(test)]
mod registers;
#[cfg(test)]
mod start;
#[cfg(test)]
mod unsound;
#[cfg(test)]
mod whole;
