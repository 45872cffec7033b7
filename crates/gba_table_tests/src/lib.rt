#![tactic(auto)]
//! Tests of the processor's ground: arithmetic of words, the registers, and the tables of ARM words and Thumb
//! halfwords.

#[cfg(test)]
mod arithmetic;
#[cfg(test)]
mod halfwords;
#[cfg(test)]
mod registers;
#[cfg(test)]
mod words;
