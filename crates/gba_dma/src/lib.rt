#![tactic(auto)]
//! The four DMA channels.

mod channel;
mod channels;
mod event;
pub mod laws;
mod unit;

pub use channel::Channel;
pub use channels::Channels;
pub use event::DmaEvent;
pub use unit::Unit;
