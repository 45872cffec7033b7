//! Whether the system has processors to spare.

use gba_store::{Gate, SystemGate, running_threads};
use std::test::Fail;

/// Words of the system, the first two rows from its manual and a machine, and what they say.
static WORDS: [(&[u8], Option<usize>); 9] = [
    (b"0.20 0.18 0.12 1/80 11206\n", Some(1)),
    (b"13.44 12.35 11.18 17/139 20079\n", Some(17)),
    (b"0 0 0 0/0 0", Some(0)),
    (b"", None),
    (b"0.20 0.18 0.12", None),
    (b"0.20 0.18 0.12 ", None),
    (b"0.20 0.18 0.12 /80 11206\n", None),
    (b"0.20 0.18 0.12 -1/80 11206\n", None),
    (b"0.20 0.18 0.12 18446744073709551616/80 11206\n", None),
];

#[test]
fn words_of_the_system_are_read(rt: HostRuntime) -> Result<(), Fail> {
    for (words, running) in &WORDS {
        assert_eq!(rt; running_threads(*words), *running);
    }
    Ok(())
}

#[test]
fn the_gate_of_the_program(rt: HostRuntime) -> Result<(), Fail> {
    let gate = SystemGate::new(rt);
    gate.enter(0, 0);
    assert!(rt; gate.is_open());
    // more than any machine has
    assert!(rt; !gate.has_room(1 << 40));
    Ok(())
}
