//! Lanes by one thread, in turn.

ghost use Rattle.std.specs.Prelude.{ℕ, ◌≡◌, ◌+◌, ◌<◌, ◌≤◌, IfOk};
ghost use Rattle.link_node.specs.Delays.{AreDelays};
ghost use Rattle.link_lane_tests.specs.Going.{MayGo};

use crate::{advance_one, lanes_of};
use gba_store::{Gate, NoGate};
use link_lane::{Lane, LaneParts, Pause};
use link_node::Delays;
use link_table::Shared;
use link_trials::{Beat, begin, drawn};
use std::alloc::Global;
use std::cell::Cell;
use std::process::Abort;
use std::test::Fail;

/// A node at clock 0 with a first step and then steps of so many cycles and one more, that tells once.
fn beat(first: u64, pace: u64, tells: u64) -> Beat
    ensures { (result.clock ≡ 0) × (result.was ≡ 0) × (result.limit ≡ 4096) }
{
    Beat {
        first,
        pace,
        tells,
        heard: None,
        clock: 0,
        was: 0,
        limit: 4096,
    }
}

/// No node comes to this clock.
const NEVER: u64 = 1 << 40;

/// A table of two nodes, and their lanes.
fn two_lanes(
    rt: &impl Abort,
    alloc: Global,
    first: Beat,
    second: Beat,
    delays: Delays,
) -> Result<(Shared<Beat>, Lane<Beat>, Lane<Beat>), Fail>
    requires fresh { (first.clock ≡ 0) × (first.was ≡ 0) × (second.clock ≡ 0) × (second.was ≡ 0) }
    requires limits { (first.limit ≡ 4096) × (second.limit ≡ 4096) }
    requires delays { AreDelays delays }
    ensures { IfOk result (λ made. MayGo made.0 4096 made.1 × MayGo made.0 4096 made.2) }
{
    let nodes = vec![in alloc; first, second]?;
    let Ok(cut) = begin(alloc, nodes, delays) else {
        panic!(rt; "no memory");
    };
    let Some((shared, mut lanes)) = lanes_of(alloc, cut, 4096) else {
        panic!(rt; "no memory");
    };
    assert!(rt; lanes.len() == 2);
    let own = lanes.remove(0);
    let other = lanes.remove(0);
    Ok((shared, own, other))
}

/// Two lanes in turn, so often.
fn in_turn(
    shared: &Shared<Beat>,
    first: &mut Lane<Beat>,
    second: &mut Lane<Beat>,
    first_end: u64,
    second_end: u64,
    times: u32,
)
    requires first { MayGo shared.now 4096 first.old × (first_end ≤ 4096) }
    requires second { MayGo shared.now 4096 second.old × (second_end ≤ 4096) }
    ensures first { MayGo shared.now 4096 first.new }
    ensures second { MayGo shared.now 4096 second.new }
{
    for turn in 0..times {
        advance_one(shared, &NoGate, first, 4096, first_end, 1);
        advance_one(shared, &NoGate, second, 4096, second_end, 1);
    }
}

#[test]
fn a_lane_steps_below_the_horizon_and_waits_at_it(rt: HostRuntime) -> Result<(), Fail> {
    let teller = beat(99, 99, NEVER);
    let (shared, mut first, mut second) = two_lanes(
        &rt,
        rt.alloc(),
        teller,
        beat(0, 0, NEVER),
        Delays::all(16),
    )?;
    in_turn(&shared, &mut first, &mut second, 1000, 1015, 20);
    assert_eq!(rt; (first.clock(), second.clock()), (1000, 1015));
    assert_eq!(rt; (first.player(), second.player()), (0, 1));
    let steps = advance_one(&shared, &NoGate, &mut second, 4096, 1016, 1);
    assert_eq!(rt; (steps, second.clock()), (Pause::Done, 1016));
    let waits = advance_one(&shared, &NoGate, &mut second, 4096, 2000, 7);
    let at_seen = Pause::Blocked {
        peer: 0,
        seen: 1000,
    };
    assert_eq!(rt; (waits, second.clock()), (at_seen, 1016));
    Ok(())
}

#[test]
fn a_lane_goes_as_far_as_the_delay_from_its_peer(rt: HostRuntime) -> Result<(), Fail> {
    // from 0 to 1 a signal takes a cycle, and 1,024 cycles back
    let (shared, mut first, mut second) = two_lanes(
        &rt,
        rt.alloc(),
        beat(0, 0, NEVER),
        beat(0, 0, NEVER),
        drawn(0x0010),
    )?;
    let near = advance_one(&shared, &NoGate, &mut second, 4096, 2000, 1);
    assert_eq!(rt;
        (near, second.clock()),
        (Pause::Blocked { peer: 0, seen: 0 }, 1)
    );
    let far = advance_one(&shared, &NoGate, &mut first, 4096, 2000, 1);
    assert_eq!(rt;
        (far, first.clock()),
        (Pause::Blocked { peer: 1, seen: 1 }, 1025)
    );
    Ok(())
}

/// Keeps how often it was entered, the sum of the clocks, and the last player and clock.
#[derive(Drop)]
struct Keeping {
    entries: Cell<u64>,
    sum: Cell<u64>,
    last: Cell<(u32, u64)>,
}

impl Gate for Keeping {
    fn enter(&self, player: u32, clock: u64) {
        self.entries.set(self.entries.get().saturating_add(1));
        self.sum.set(self.sum.get().saturating_add(clock));
        self.last.set((player, clock));
    }
}

#[test]
fn the_gate_is_entered_before_each_step(rt: HostRuntime) -> Result<(), Fail> {
    let (shared, first, mut second) = two_lanes(
        &rt,
        rt.alloc(),
        beat(2, 2, NEVER),
        beat(2, 2, NEVER),
        Delays::all(16),
    )?;
    let gate = Keeping {
        entries: Cell::new(0),
        sum: Cell::new(0),
        last: Cell::new((7, 7)),
    };
    let none = advance_one(&shared, &gate, &mut second, 4096, 0, 1);
    assert_eq!(rt; (none, gate.entries.get()), (Pause::Done, 0));
    // steps at 0, 3, 6, 9, 12 and 15; a signal that the other sends at 0 may arrive at 16
    let waits = advance_one(&shared, &gate, &mut second, 4096, 1000, 1);
    assert_eq!(rt; waits, Pause::Blocked { peer: 0, seen: 0 });
    assert_eq!(rt; second.clock(), 18);
    assert_eq!(rt;
        (gate.entries.get(), gate.sum.get(), gate.last.get()),
        (6, 45, (1, 15))
    );
    assert_eq!(rt; first.clock(), 0);
    Ok(())
}

#[test]
fn a_signal_is_taken_at_its_arrival_and_not_before(rt: HostRuntime) -> Result<(), Fail> {
    // sent at 100, so it arrives at 1,124: steps at 0, 281, 562, 843, 1,124, and at 0, 280, 561, 842, 1,123, 1,404
    for (first, heard) in [(280, 1124), (279, 1404)] {
        let (shared, mut teller, mut listener) = two_lanes(
            &rt,
            rt.alloc(),
            beat(99, 99, 100),
            beat(first, 280, NEVER),
            Delays::all(1024),
        )?;
        in_turn(&shared, &mut teller, &mut listener, 1500, 1500, 20);
        assert!(rt; teller.clock() >= 1500 && listener.clock() >= 1500);
        let LaneParts {
            node,
            seat: _,
            waiting,
        } = listener.into_parts();
        assert_eq!(rt; (node.heard, waiting.len()), (Some(heard), 0));
    }
    Ok(())
}

#[test]
fn what_was_fetched_and_not_taken_waits(rt: HostRuntime) -> Result<(), Fail> {
    let (shared, mut teller, mut listener) = two_lanes(
        &rt,
        rt.alloc(),
        beat(99, 99, 100),
        beat(280, 280, NEVER),
        Delays::all(1024),
    )?;
    in_turn(&shared, &mut teller, &mut listener, 1100, 1100, 20);
    let LaneParts {
        node,
        seat: _,
        waiting,
    } = listener.into_parts();
    assert_eq!(rt; (node.heard, waiting.len()), (None, 1));
    let arrivals = waiting
        .iter()
        .map(|one| (one.sender, one.arrival, one.signal.clock));
    assert_eq!(rt; arrivals.min(), Some((0, 1124, 100)));
    Ok(())
}
