//! Interrupts, the halt and the keypad.

use gba_irq::{Interrupts, Keypad};
use std::process::Abort;
use std::test::Fail;

/// Requests are set by `raise`, cleared by ones written to IF, and pending where IE has them, whatever IME says.
#[test]
fn interrupts_are_requested_and_cleared(rt: HostRuntime) -> Result<(), Fail> {
    let mut interrupts = Interrupts::new();
    assert!(rt; !interrupts.pending());
    interrupts.raise(12);
    interrupts.raise(3);
    assert_eq!(rt; interrupts.read(0x202), 0x1008);
    assert!(rt; !interrupts.pending());
    interrupts.write(0x200, 0xFFFF);
    assert_eq!(rt; interrupts.read(0x200), 0x3FFF);
    assert!(rt; interrupts.pending());
    interrupts.write(0x202, 0x1000);
    assert_eq!(rt; interrupts.read(0x202), 0x0008);
    interrupts.acknowledge(0xFFF7);
    assert_eq!(rt; interrupts.raised, 0x0008);
    interrupts.write(0x200, 0x1000);
    assert!(rt; !interrupts.pending());
    assert_eq!(rt; interrupts.kept(0x202), 0);
    assert_eq!(rt; interrupts.kept(0x200), 0x1000);
    interrupts.write(0x208, 0xFFFE);
    assert!(rt; !interrupts.master);
    interrupts.write(0x208, 0x0003);
    assert_eq!(rt; interrupts.read(0x208), 1);
    interrupts.write(0x204, 0xFFFF);
    assert_eq!(rt; interrupts.read(0x204), 0);
    Ok(())
}

/// Key changes and writes of KEYCNT, and whether the condition became true at each.
#[derive(Clone, Copy)]
enum Press {
    Keys(u16, bool),
    Control(u16, bool),
}

use Press::{Control, Keys};

fn play<R: Abort>(rt: &R, presses: &[Press]) {
    let mut keypad = Keypad::new();
    for one in presses {
        match *one {
            Keys(pressed, raised) => assert_eq!(rt; keypad.set(pressed), raised),
            Control(value, raised) => assert_eq!(rt; keypad.control(value), raised),
        }
    }
}

/// Any of A and B: true at the first of them, and again only after both were let go.
static ANY: [Press; 7] = [
    Control(0x4003, false),
    Keys(0x004, false),
    Keys(0x001, true),
    Keys(0x003, false),
    Keys(0x002, false),
    Keys(0x000, false),
    Keys(0x002, true),
];

/// All of A and B.
static ALL: [Press; 5] = [
    Control(0xC003, false),
    Keys(0x001, false),
    Keys(0x003, true),
    Keys(0x007, false),
    Keys(0x002, false),
];

/// No key is chosen: never, whichever way.
static NONE: [Press; 4] = [
    Keys(0x3FF, false),
    Control(0x4000, false),
    Control(0xC000, false),
    Keys(0x000, false),
];

/// The edge by writes of KEYCNT while keys are held.
static BY_CONTROL: [Press; 6] = [
    Keys(0x009, false),
    Control(0x0008, false),
    Control(0x4008, true),
    Control(0x4001, false),
    Control(0x4002, false),
    Control(0xC009, true),
];

#[test]
fn keypad_asks_at_each_edge(rt: HostRuntime) -> Result<(), Fail> {
    let cases: [&[Press]; 4] = [&ANY, &ALL, &NONE, &BY_CONTROL];
    for presses in cases {
        play(&rt, presses);
    }
    let mut keypad = Keypad::new();
    assert_eq!(rt; keypad.read(0x130), 0x03FF);
    assert!(rt; !keypad.set(0xFC01));
    assert_eq!(rt; keypad.read(0x130), 0x03FE);
    assert_eq!(rt; keypad.pressed(), 0x001);
    assert!(rt; !keypad.control(0xFFFF));
    assert_eq!(rt; keypad.read(0x132), 0xC3FF);
    assert_eq!(rt; keypad.chosen(), 0xC3FF);
    assert_eq!(rt; keypad.read(0x134), 0);
    Ok(())
}

/// The pressed keys and KEYCNT that a keypad is made of, what KEYINPUT then reads, and whether letting the keys go and
/// pressing them again makes the condition true.
static MADE: [(u16, u16, u16, bool); 4] = [
    (0x000, 0x0000, 0x3FF, false),
    (0x201, 0x4001, 0x1FE, true),
    (0x3FF, 0xC3FF, 0x000, true),
    (0x201, 0xC003, 0x1FE, false),
];

#[test]
fn keypads_are_made_of_their_numbers(rt: HostRuntime) -> Result<(), Fail> {
    for (pressed, control, input, raised) in MADE {
        let mut keypad = Keypad::of(pressed, control);
        assert_eq!(rt; keypad.pressed(), pressed);
        assert_eq!(rt; keypad.chosen(), control);
        assert_eq!(rt; keypad.read(0x130), input);
        assert_eq!(rt; keypad.read(0x132), control);
        // The same keys raise nothing: the condition was what they made it.
        assert!(rt; !keypad.set(pressed));
        assert!(rt; !keypad.set(0));
        assert_eq!(rt; keypad.set(pressed), raised);
    }
    Ok(())
}
