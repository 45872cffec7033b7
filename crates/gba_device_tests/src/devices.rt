//! Devices that are made of their parts.

use gba_devices::{DeviceParts, Devices};
use gba_dma::Channels;
use gba_irq::{Interrupts, Keypad};
use gba_ppu_reg::{PictureRegisters, Position};
use gba_psg::Tones;
use gba_sound::Queues;
use gba_timer::{Timer, Timers};
use std::process::Abort;
use std::test::Fail;

/// A timer that counts each cycle, 20 cycles before it overflows.
const NEAR: Timer = Timer {
    counter: 0xFFEC,
    reload: 0x1234,
    control: 0x0080,
    phase: 0,
};

/// One that was never written.
const STILL: Timer = Timer {
    counter: 0,
    reload: 0,
    control: 0,
    phase: 0,
};

/// Devices at clock 1,000, in line 3 at dot 1,000, whatever else the line and the clock have to do with one another.
fn made() -> Devices {
    Devices::of(DeviceParts {
        clock: 1000,
        timers: Timers::of(NEAR, STILL, STILL, STILL),
        queues: Queues::new(),
        tones: Tones::new(),
        channels: Channels::new(),
        place: Position { line: 3, dot: 1000 },
        picture: PictureRegisters::new(),
        interrupts: Interrupts::new(),
        keypad: Keypad::new(),
        waits: 0x4317,
        posted: true,
        halted: true,
    })
}

/// Whether so many cycles are owed.
fn owes<R: Abort>(rt: &R, devices: &mut Devices, cycles: u32) -> bool {
    assert!(rt; cycles <= 512);
    assert!(rt; devices.clock() < 2_000_000);
    devices.owe(cycles)
}

fn cycle<R: Abort>(rt: &R, devices: &mut Devices) {
    assert!(rt; devices.clock() < 2_000_000);
    devices.cycle();
}

/// HBlank comes in the sixth cycle and the overflow in the twentieth, so that five cycles and then thirteen are owed at
/// once, and no more.
#[test]
fn devices_are_made_of_their_parts(rt: HostRuntime) -> Result<(), Fail> {
    let mut devices = made();
    assert_eq!(rt; devices.clock(), 1000);
    assert_eq!(rt;
        (devices.set().waits(), devices.set().priced()),
        (0x4317, 0x4317)
    );
    assert!(rt; devices.set().halted());
    assert_eq!(rt; devices.half_listed(0x300), 1);
    assert!(rt; !owes(&rt, &mut devices, 6));
    assert!(rt; owes(&rt, &mut devices, 5));
    assert!(rt; !owes(&rt, &mut devices, 1));
    cycle(&rt, &mut devices);
    assert_eq!(rt; devices.place(), Position { line: 3, dot: 1006 });
    assert!(rt; !owes(&rt, &mut devices, 14));
    assert!(rt; owes(&rt, &mut devices, 13));
    cycle(&rt, &mut devices);
    assert_eq!(rt; devices.timer(0).counter, 0x1234);
    assert_eq!(rt; devices.clock(), 1020);
    Ok(())
}
