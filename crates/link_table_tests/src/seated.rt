//! Two, three or four consoles at one table.

ghost use Rattle.std.specs.Prelude.{ℕ, ◌≡◌, ◌+◌, ◌<◌, ◌≤◌, All, IfOk, length};
ghost use Rattle.std.specs.Vec.{vec_len};
ghost use Rattle.link_node.specs.Delays.{AreDelays};
ghost use Rattle.link_table.specs.Opening.{Begins};
ghost use Rattle.link_table_tests.specs.Following.{ticked_kind, ticked_plain, HaveOneLimit, AreSeated};

use crate::console::Console;
use crate::ticker::Ticker;
use link_core::Cut;
use link_node::Delays;
use link_table::{Seat, Shared};
use link_trials::begin;
use std::alloc::Global;
use std::process::Abort;
use std::test::Fail;

/// A console for each node of a cut, with its seat, by player number.
fn pair_up(
    alloc: Global,
    cut: &Cut<Ticker>,
    shared: &Shared<Ticker>,
    seats: Vec<Seat<Ticker>>,
) -> Result<Vec<Console>, Fail>
    requires limits { HaveOneLimit cut.now.consoles }
    requires begun { Begins ticked_kind ticked_plain (λ t. t.limit) cut.now shared.now seats.items }
    ensures { IfOk result (λ made.
        AreSeated shared.now (length cut.now.consoles) (length cut.now.consoles) made.items) }
{
    let nodes = cut.nodes();
    let mut seats = seats;
    let mut consoles = Vec::new(alloc);
    for player in 0..nodes.len() {
        let seat = seats.remove(0);
        consoles.push(Console::new(nodes[player], seat))?;
    }
    Ok(consoles)
}

/// A table of nodes that haven't stepped, and its consoles by player number.
pub fn make_consoles(
    rt: &impl Abort,
    alloc: Global,
    nodes: Vec<Ticker>,
    delays: Delays,
) -> Result<(Shared<Ticker>, Vec<Console>), Fail>
    requires some { 0 < vec_len nodes }
    requires four { vec_len nodes ≤ 4 }
    requires fresh { All (λ t. (t.clock ≡ 0) × (t.was ≡ 0)) nodes.items }
    requires limits { HaveOneLimit nodes.items }
    requires delays { AreDelays delays }
    ensures { IfOk result (λ made. AreSeated made.0 (vec_len nodes) (vec_len nodes) made.1.items) }
{
    let Ok(cut) = begin(alloc, nodes, delays) else {
        panic!(rt; "no memory");
    };
    let Ok((shared, seats)) = Shared::begin(alloc, &cut) else {
        panic!(rt; "no memory");
    };
    let consoles = pair_up(alloc, &cut, &shared, seats)?;
    Ok((shared, consoles))
}

/// A table of two nodes that haven't stepped, and its two consoles.
pub fn two_consoles(
    rt: &impl Abort,
    alloc: Global,
    first: Ticker,
    second: Ticker,
    delays: Delays,
) -> Result<(Shared<Ticker>, Console, Console), Fail>
    requires fresh { (first.clock ≡ 0) × (first.was ≡ 0) × (second.clock ≡ 0) × (second.was ≡ 0) }
    requires limits { first.limit ≡ second.limit }
    requires delays { AreDelays delays }
    ensures tables { IfOk result (λ made. (made.1.table ≡ made.0) × (made.2.table ≡ made.0)) }
    ensures players { IfOk result (λ made. (made.1.player ≡ 0) × (made.2.player ≡ 1)) }
    ensures two { IfOk result (λ made. (made.1.players ≡ 2) × (made.2.players ≡ 2)) }
{
    let nodes = vec![in alloc; first, second]?;
    let (shared, mut consoles) = make_consoles(rt, alloc, nodes, delays)?;
    let own = consoles.remove(0);
    let other = consoles.remove(0);
    Ok((shared, own, other))
}
