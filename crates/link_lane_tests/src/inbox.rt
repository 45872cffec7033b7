//! An inbox by itself.

ghost use Rattle.std.specs.Prelude.{◌≡◌, ◌+◌, ◌^◌, ◌<◌};

use link_inbox::Inbox;
use link_node::{Incoming, LinkMode, Signal};
use std::test::Fail;

/// A signal of this sender, which is under way for 16 cycles.
fn incoming(sender: u32, arrival: u64) -> Incoming {
    Incoming {
        sender,
        arrival,
        signal: Signal {
            clock: arrival.saturating_sub(16),
            mode: LinkMode::Other,
            start: None,
            reply: None,
        },
    }
}

#[test]
fn signals_wait_by_arrival_then_by_sender(rt: HostRuntime) -> Result<(), Fail> {
    let opening = [
        incoming(1, 20),
        incoming(1, 39),
        incoming(0, 40),
        incoming(3, 40),
    ];
    let mut inbox = Inbox::new(rt.alloc(), &opening)?;
    inbox.put(incoming(2, 40));
    inbox.put(incoming(0, 30));
    inbox.deliver(29);
    assert_eq!(rt; inbox.due(), [incoming(1, 20)].as_slice());
    inbox.deliver(29);
    assert!(rt; inbox.due().is_empty());
    inbox.deliver(39);
    assert_eq!(rt; inbox.due(), [incoming(0, 30), incoming(1, 39)].as_slice());
    let waiting = inbox.into_waiting();
    assert_eq!(rt;
        waiting.as_slice(),
        [incoming(0, 40), incoming(2, 40), incoming(3, 40)].as_slice()
    );
    Ok(())
}
