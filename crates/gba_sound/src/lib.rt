#![tactic(auto)]
//! Direct sound: two queues of samples, and their registers.

mod asked;
mod queue;
mod queues;

pub use asked::Asked;
pub use queue::Queue;
pub use queues::Queues;
