//! Signals that are on their way where a round ends.

ghost use Rattle.std.specs.Prelude.{ℕ, ◌≡◌, ◌<◌, ◌≤◌};

use gba_store::NoGate;
use link_core::Cut;
use link_node::{Delays, Node};
use link_order::Sent;
use link_run::{Round, RoundRefused, run_to};
use link_trials::{Beat, begin, drawn};
use std::alloc::Global;
use std::test::Fail;

/// A node at clock 0 with steps of `pace` cycles and one more, that tells once.
fn beat(pace: u64, tells: u64) -> Beat
    ensures { (result.clock ≡ 0) × (result.was ≡ 0) × (result.limit ≡ 4096) }
{
    Beat {
        first: pace,
        pace,
        tells,
        heard: None,
        clock: 0,
        was: 0,
        limit: 4096,
    }
}

/// No node comes to this clock.
pub(crate) const NEVER: u64 = 1 << 40;

#[test]
fn a_signal_that_nobody_took_stays_on_its_way(rt: HostRuntime) -> Result<(), Fail> {
    let nodes = vec![in rt.alloc(); beat(9, 590), beat(6, NEVER)]?;
    let Ok(cut) = begin(rt.alloc(), nodes, Delays::all(1024)) else {
        panic!(rt; "no memory");
    };
    let cut = run_to(&rt, rt.alloc(), cut, &NoGate, 600);
    let sent = cut.sent().iter().map(|one| (one.sender, one.signal.clock));
    assert_eq!(rt; sent.min(), Some((0, 590)));
    assert_eq!(rt; cut.sent().len(), 1);
    let cut = run_to(&rt, rt.alloc(), cut, &NoGate, 2000);
    // the first step of seven cycles that begins at 1,614 or later
    let heard = cut.nodes().iter().map(|node| node.heard);
    assert_eq!(rt; heard.max(), Some(Some(1617)));
    assert_eq!(rt; cut.sent().len(), 0);
    Ok(())
}

/// A round that ends where it began.
fn pass_by<N: Node>(alloc: Global, cut: Cut<N>) -> Cut<N> {
    match Round::begin(alloc, cut) {
        Ok(round) => round.finish(),
        Err(refused) => {
            let RoundRefused { cut } = refused;
            cut
        }
    }
}

#[test]
fn a_round_that_does_nothing_changes_nothing(rt: HostRuntime) -> Result<(), Fail> {
    let nodes = vec![in rt.alloc(); beat(9, 590), beat(6, 588), beat(49, NEVER)]?;
    let Ok(mut cut) = begin(rt.alloc(), nodes, drawn(0x0fff)) else {
        panic!(rt; "no memory");
    };
    cut.run_serial(600);
    let nodes = cut.nodes().to_vec(rt.alloc())?;
    let sent = cut.sent().to_vec(rt.alloc())?;
    assert_eq!(rt; sent.len(), 2);
    let cut = pass_by(rt.alloc(), cut);
    assert_eq!(rt; cut.nodes(), nodes.as_slice());
    assert_eq!(rt; cut.sent(), sent.as_slice());
    assert_eq!(rt; *cut.delays(), drawn(0x0fff));
    Ok(())
}

/// Takes the signals away, puts them in again, and answers how many there were between.
fn put_away_and_back<N: Node>(cut: &mut Cut<N>, sent: &[Sent]) -> usize
    requires { sent.now ≡ cut.old.sent }
{
    let _ = cut.nodes();
    let _ = cut.sent();
    cut.set_sent(&[]);
    let between = cut.sent().len();
    cut.set_sent(sent);
    between
}

#[test]
fn signals_are_those_that_were_put_in(rt: HostRuntime) -> Result<(), Fail> {
    let nodes = vec![in rt.alloc(); beat(9, 590), beat(6, 588), beat(49, NEVER)]?;
    let Ok(mut cut) = begin(rt.alloc(), nodes, drawn(0x0fff)) else {
        panic!(rt; "no memory");
    };
    cut.run_serial(600);
    let sent = cut.sent().to_vec(rt.alloc())?;
    assert_eq!(rt; put_away_and_back(&mut cut, sent.as_slice()), 0);
    assert_eq!(rt; cut.sent(), sent.as_slice());
    Ok(())
}
