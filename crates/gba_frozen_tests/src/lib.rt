#![tactic(auto)]
//! Tests of the numbers of a console and of the lines of a frozen file.

#[cfg(test)]
mod files;
#[cfg(test)]
mod keeping;
#[cfg(test)]
mod laws;
#[cfg(test)]
mod numbers;
#[cfg(test)]
mod others;
#[cfg(test)]
mod printed;
#[cfg(test)]
mod ranges;
#[cfg(test)]
mod reading;
#[cfg(test)]
mod spelling;
#[cfg(test)]
mod still;
#[cfg(test)]
mod walk;
#[cfg(test)]
mod whole;
