//! Packed signals, their numbers worked out by hand from the places of the bits.

use super::*;

const BARE: Signal = Signal {
    clock: 5,
    mode: LinkMode::Multi,
    start: None,
    reply: None,
};

/// Signals and their two numbers.
fn rows() -> [(Signal, u64, u64); 4] {
    [
        (BARE, 5 + 2 * 0x100_0000_0000, 0),
        (
            Signal {
                clock: 5,
                mode: LinkMode::Multi,
                start: Some(Start {
                    speed: 3,
                    word: 0x1234,
                }),
                reply: None,
            },
            5 + 2 * 0x100_0000_0000 + 0x400_0000_0000 + 3 * 0x800_0000_0000,
            0x1234,
        ),
        (
            Signal {
                clock: 0xff_ffff_ffff,
                mode: LinkMode::Other,
                start: None,
                reply: Some(0xffff_ffff),
            },
            0x23ff_ffff_ffff,
            0xffff_ffff_0000_0000,
        ),
        (
            Signal {
                clock: 0,
                mode: LinkMode::Normal32,
                start: Some(Start {
                    speed: 0,
                    word: 0x89ab_cdef,
                }),
                reply: Some(0),
            },
            0x2500_0000_0000,
            0x89ab_cdef,
        ),
    ]
}

#[test]
fn signals_pack_and_unpack(rt: HostRuntime) {
    for (signal, a, b) in rows() {
        assert!(rt; signal.clock < 1 << 40);
        assert!(rt; signal.fits());
        assert_eq!(rt; pack(&signal), (a, b));
        assert_eq!(rt; unpack(a, b), Some(signal));
    }
}

#[test]
fn a_speed_of_three_bits_does_not_fit(rt: HostRuntime) {
    for (speed, fits) in [(0, true), (3, true), (4, false), (255, false)] {
        let start = Some(Start {
            speed,
            word: 0xffff_ffff,
        });
        let reply = Some(0xffff_ffff);
        assert_eq!(rt;
            Signal {
                start,
                reply,
                ..BARE
            }
            .fits(),
            fits
        );
        assert!(rt; Signal { reply, ..BARE }.fits());
    }
}

#[test]
fn other_numbers_are_no_signal(rt: HostRuntime) {
    // a start's word without a start; a speed without one; a reply's word without a reply; a bit above 45
    for (a, b) in [
        (0, 1),
        (1 << 43, 0),
        (1 << 42, 1 << 32),
        (1 << 46, 0),
        (1 << 63, 0),
    ] {
        assert_eq!(rt; unpack(a, b), None);
    }
    assert_eq!(rt;
        unpack(1 << 42, 1),
        Some(Signal {
            clock: 0,
            mode: LinkMode::Normal8,
            start: Some(Start { speed: 0, word: 1 }),
            reply: None,
        })
    );
}
