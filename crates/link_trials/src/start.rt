//! Cuts of nodes that haven't stepped.

ghost use Rattle.std.specs.Prelude.{ℕ, ◌≡◌, ◌+◌, ◌<◌, ◌≤◌, ◌^◌, length, All, IfOk};
ghost use Rattle.std.specs.Vec.{vec_len};
ghost use Rattle.link_node.specs.Delays.{AreDelays};
ghost use Rattle.link_order.specs.Cut.{opening};

use crate::mixer::Mixer;
use link_core::{Cut, CutRefused};
use link_node::{Delays, Node};
use std::alloc::{AllocError, Global};

/// The cut of nodes that all stand at clock 0.
pub fn begin<N: Node>(alloc: Global, nodes: Vec<N>, delays: Delays) -> Result<Cut<N>, CutRefused<N>>
    requires some { 0 < vec_len nodes }
    requires four { vec_len nodes ≤ 4 }
    requires delays { AreDelays delays }
    requires fresh { All (λ n. (N.clock (N.plain n) ≡ 0) × (N.was (N.plain n) ≡ 0)) nodes.items }
    ensures { IfOk result (λ cut. cut ≡ opening nodes.items delays) }
{
    Cut::new(alloc, nodes, delays)
}

/// Delays of 1 and of 1,024 cycles. The bit of a pair in `number`, which is four times the sender's number and the
/// receiver's, says whether it has the long one.
pub fn drawn(number: u64) -> Delays
    ensures { AreDelays result }
{
    let mut delays = Delays::all(1);
    for pair in 0..16 {
        if (number >> pair) % 2 == 1 {
            delays = delays.with(pair / 4, pair % 4, 1024);
        }
    }
    delays
}

/// So many mixers at clock 0, with different numbers.
pub fn mixers(alloc: Global, count: usize, seed: u64, limit: u64) -> Result<Vec<Mixer>, AllocError>
    requires { limit ≤ 2 ^ 39 }
    ensures len { IfOk result (λ nodes. vec_len nodes ≡ count) }
    ensures fresh { IfOk result (λ nodes. All (λ m. (m.clock ≡ 0) × (m.was ≡ 0) × (m.limit ≡ limit)) nodes.items) }
{
    let mut nodes = Vec::new(alloc);
    let mut state = seed;
    for _ in 0..count {
        state = state
            .wrapping_mul(6364136223846793005)
            .wrapping_add(1442695040888963407);
        nodes.push(Mixer {
            state,
            clock: 0,
            was: 0,
            limit,
        })?;
    }
    Ok(nodes)
}
