//! Two nodes that meet in their steps.

ghost use Rattle.std.specs.Prelude.{◌≡◌, IfOk};

use crate::{Meeter, Meeting};
use gba_store::NoGate;
use link_node::Delays;
use link_run::run_to;
use link_trials::begin;
use std::alloc::{AllocError, Global};
use std::sync::Arc;
use std::sync::atomic::Ordering;
use std::test::Fail;

/// A node at clock 0.
fn meeter(meeting: &Arc<Meeting, Global>, player: bool) -> Result<Meeter, AllocError>
    ensures { IfOk result (λ m. (m.clock ≡ 0) × (m.was ≡ 0) × (m.limit ≡ 1000)) }
{
    let meeting = meeting.clone()?;
    Ok(Meeter {
        meeting,
        player,
        clock: 0,
        was: 0,
        limit: 1000,
    })
}

#[test]
fn two_turns_meet(rt: HostRuntime) -> Result<(), Fail> {
    let meeting = Arc::new(rt.alloc(), Meeting::new())?;
    let nodes = vec![in rt.alloc(); meeter(&meeting, false)?, meeter(&meeting, true)?]?;
    let Ok(cut) = begin(rt.alloc(), nodes, Delays::all(1024)) else {
        panic!(rt; "no memory");
    };
    let cut = run_to(&rt, rt.alloc(), cut, &NoGate, 1000);
    assert!(rt;
        !meeting.missed.load(Ordering::SeqCst),
        "a node waits in vain"
    );
    assert_eq!(rt; meeting.met.load(Ordering::SeqCst), 4);
    for node in cut.nodes() {
        assert_eq!(rt; (node.clock, node.was), (1002, 999));
    }
    Ok(())
}
