#![tactic(auto)]
//! Tests of sprites, of mixed lines and of blended ones: worked lines of each, and random ones against a plain program.

mod numbers;

pub use numbers::Random;

#[cfg(test)]
mod arithmetic;
#[cfg(test)]
mod blending;
#[cfg(test)]
mod kernels;
#[cfg(test)]
mod memory;
#[cfg(test)]
mod order;
#[cfg(test)]
mod plain;
#[cfg(test)]
mod random;
#[cfg(test)]
mod scene;
#[cfg(test)]
mod sprites;
#[cfg(test)]
mod windows;
