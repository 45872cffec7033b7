//! Whether nodes and signals are a cut from which a run can go on.

use crate::signals::NEVER;
use link_core::is_whole;
use link_node::{Delays, LinkMode, Signal};
use link_order::Sent;
use link_trials::Beat;
use std::test::Fail;

/// A node at a clock, whose last step began at `was`.
fn node(clock: u64, was: u64) -> Beat {
    Beat {
        first: 1,
        pace: 1,
        tells: NEVER,
        heard: None,
        clock: clock.min(4096),
        was,
        limit: 4096,
    }
}

fn signal(sender: u32, clock: u64) -> Sent {
    Sent {
        sender,
        signal: Signal {
            clock,
            mode: LinkMode::Other,
            start: None,
            reply: None,
        },
    }
}

/// The clocks of two nodes, each with the one at which its last step began, and signals by sender and clock; the
/// delay is 100.
struct Cut {
    nodes: [(u64, u64); 2],
    sent: &'static [(u32, u64)],
    whole: bool,
}

/// Where the nodes of most rows are.
const NEAR: [(u64, u64); 2] = [(300, 200), (290, 250)];

/// The first node is as far ahead as it may be.
const FAR: [(u64, u64); 2] = [(901, 389), (290, 250)];

static CUTS: [Cut; 20] = [
    Cut {
        nodes: NEAR,
        sent: &[],
        whole: true,
    },
    // a last step that ends before it begins, one of 512 cycles and one of 513
    Cut {
        nodes: [(300, 301), (290, 250)],
        sent: &[],
        whole: false,
    },
    Cut {
        nodes: [(712, 200), (690, 650)],
        sent: &[],
        whole: true,
    },
    Cut {
        nodes: [(713, 200), (690, 650)],
        sent: &[],
        whole: false,
    },
    // what the second node still sends arrives in the first one's last step, and before it
    Cut {
        nodes: FAR,
        sent: &[],
        whole: true,
    },
    Cut {
        nodes: [(901, 390), (290, 250)],
        sent: &[],
        whole: false,
    },
    Cut {
        nodes: [(290, 250), (901, 390)],
        sent: &[],
        whole: false,
    },
    // the second node took it in its last step, and it didn't
    Cut {
        nodes: NEAR,
        sent: &[(0, 150)],
        whole: false,
    },
    Cut {
        nodes: NEAR,
        sent: &[(0, 151)],
        whole: true,
    },
    // the sender has stepped since, and it hasn't
    Cut {
        nodes: NEAR,
        sent: &[(0, 299)],
        whole: true,
    },
    Cut {
        nodes: NEAR,
        sent: &[(0, 300)],
        whole: false,
    },
    // nobody's
    Cut {
        nodes: NEAR,
        sent: &[(2, 200)],
        whole: false,
    },
    // the second node could still have stopped it
    Cut {
        nodes: FAR,
        sent: &[(0, 389)],
        whole: true,
    },
    Cut {
        nodes: FAR,
        sent: &[(0, 390)],
        whole: false,
    },
    // by clock, then by sender, and none twice
    Cut {
        nodes: NEAR,
        sent: &[(0, 200), (1, 200)],
        whole: true,
    },
    Cut {
        nodes: NEAR,
        sent: &[(1, 200), (0, 200)],
        whole: false,
    },
    Cut {
        nodes: NEAR,
        sent: &[(0, 200), (0, 200)],
        whole: false,
    },
    Cut {
        nodes: NEAR,
        sent: &[(0, 201), (0, 200)],
        whole: false,
    },
    Cut {
        nodes: NEAR,
        sent: &[(0, 200), (0, 201), (1, 202)],
        whole: true,
    },
    Cut {
        nodes: NEAR,
        sent: &[(0, 200), (1, 202), (0, 201)],
        whole: false,
    },
];

#[test]
fn cuts_from_which_runs_go_on(rt: HostRuntime) -> Result<(), Fail> {
    for (place, cut) in CUTS.iter().enumerate() {
        let [one, other] = cut.nodes;
        let nodes = [node(one.0, one.1), node(other.0, other.1)];
        let mut sent = Vec::new(rt.alloc());
        for &(sender, clock) in cut.sent {
            sent.push(signal(sender, clock))?;
        }
        let whole = is_whole(&nodes, &Delays::all(100), sent.as_slice());
        assert_eq!(rt; whole, cut.whole, "row {place}");
    }
    Ok(())
}
