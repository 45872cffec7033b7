#![tactic(auto)]
//! Tests of the devices: worked cases of timers, DMA channels, direct sound, tone channels, interrupts, the keypad, the
//! picture's registers and position, and all of them together.

#[cfg(test)]
mod devices;
#[cfg(test)]
mod dma;
#[cfg(test)]
mod interrupts;
#[cfg(test)]
mod picture;
#[cfg(test)]
mod plainly;
#[cfg(test)]
mod quiet;
#[cfg(test)]
mod sound;
#[cfg(test)]
mod timers;
#[cfg(test)]
mod tones;
