//! The lines of queues, of the wave, of memories and of signals.

use crate::reading::{Cases, NUMBER, SPELLING, are_right};
use gba_frozen::{MemoryPlace, Slot};
use gba_numbers::MemoryName;

/// Lines by what they are about, each with why it is refused, if it is.
static OTHERS: [Cases; 7] = [
    // the number of the bytes is that of the word, and a dash stands for none
    (
        "queues",
        &[
            (Slot::Queue(0), b"queue A 00 0 -", None),
            (Slot::Queue(0), b"queue A 7f 2 01ff", None),
            (Slot::Queue(0), b"queue A 00 0 ", SPELLING),
            (Slot::Queue(0), b"queue A 00 0 00", SPELLING),
            (Slot::Queue(0), b"queue A 7f 1 -", SPELLING),
            (Slot::Queue(0), b"queue A 7f 1 01ff", SPELLING),
            (Slot::Queue(0), b"queue A 7f 2 01f", SPELLING),
            (Slot::Queue(0), b"queue A 7F 0 -", SPELLING),
            (Slot::Queue(0), b"queue A 00 00 -", SPELLING),
            (Slot::Queue(0), b"queue B 00 0 -", SPELLING),
        ],
    ),
    // 33 bytes are spelled right, and are too many
    (
        "queues hold 32 bytes",
        &[
            (
                Slot::Queue(0),
                b"queue A 00 32 a5a5a5a5a5a5a5a5a5a5a5a5a5a5a5a5a5a5a5a5a5a5a5a5a5a5a5a5a5a5a5a5",
                None,
            ),
            (
                Slot::Queue(0),
                b"queue A fe 31 a5a5a5a5a5a5a5a5a5a5a5a5a5a5a5a5a5a5a5a5a5a5a5a5a5a5a5a5a5a5a5",
                None,
            ),
            (
                Slot::Queue(0),
                b"queue A 00 33 a5a5a5a5a5a5a5a5a5a5a5a5a5a5a5a5a5a5a5a5a5a5a5a5a5a5a5a5a5a5a5a5a5",
                NUMBER,
            ),
            (
                Slot::Queue(0),
                b"queue A 00 33 a5a5a5a5a5a5a5a5a5a5a5a5a5a5a5a5a5a5a5a5a5a5a5a5a5a5a5a5a5a5a5a5",
                SPELLING,
            ),
        ],
    ),
    // 16 bytes
    (
        "waves",
        &[
            (
                Slot::Wave(0),
                b"wave 0 0f0f0f0f0f0f0f0f0f0f0f0f0f0f0f0f",
                None,
            ),
            (
                Slot::Wave(0),
                b"wave 0 0f0f0f0f0f0f0f0f0f0f0f0f0f0f0f",
                SPELLING,
            ),
            (
                Slot::Wave(0),
                b"wave 0 0f0f0f0f0f0f0f0f0f0f0f0f0f0f0f0f0f",
                SPELLING,
            ),
            (
                Slot::Wave(0),
                b"wave 1 0f0f0f0f0f0f0f0f0f0f0f0f0f0f0f0f",
                SPELLING,
            ),
            (
                Slot::Wave(0),
                b"wave 0 0F0F0F0F0F0F0F0F0F0F0F0F0F0F0F0F",
                SPELLING,
            ),
        ],
    ),
    // offsets within each memory; bytes that are all 0 have no line
    (
        "memories",
        &[
            (
                Slot::Memory(None),
                b"mem wram 000000 0100000000000000000000000000000000000000000000000000000000000000",
                None,
            ),
            (
                Slot::Memory(None),
                b"mem wram 000000 0000000000000000000000000000000000000000000000000000000000000000",
                SPELLING,
            ),
            (
                Slot::Memory(None),
                b"mem wram 000010 0100000000000000000000000000000000000000000000000000000000000000",
                NUMBER,
            ),
            (
                Slot::Memory(None),
                b"mem wram 03ffe0 0100000000000000000000000000000000000000000000000000000000000000",
                None,
            ),
            (
                Slot::Memory(None),
                b"mem wram 040000 0100000000000000000000000000000000000000000000000000000000000000",
                NUMBER,
            ),
            (
                Slot::Memory(None),
                b"mem wram 00000 0100000000000000000000000000000000000000000000000000000000000000",
                SPELLING,
            ),
            (
                Slot::Memory(None),
                b"mem rom 000000 0100000000000000000000000000000000000000000000000000000000000000",
                SPELLING,
            ),
            (
                Slot::Memory(None),
                b"mem wram 000000 00000000000000000000000000000000000000000000000000000000000000",
                SPELLING,
            ),
        ],
    ),
    // each memory's last line, and the one behind it
    (
        "ends of memories",
        &[
            (
                Slot::Memory(None),
                b"mem io 0003e0 0100000000000000000000000000000000000000000000000000000000000000",
                None,
            ),
            (
                Slot::Memory(None),
                b"mem io 000400 0100000000000000000000000000000000000000000000000000000000000000",
                NUMBER,
            ),
            (
                Slot::Memory(None),
                b"mem io 0003c0 0100000000000000000000000000000000000000000000000000000000000000",
                None,
            ),
            (
                Slot::Memory(None),
                b"mem iwram 007fe0 0100000000000000000000000000000000000000000000000000000000000000",
                None,
            ),
            (
                Slot::Memory(None),
                b"mem palette 0003e0 0100000000000000000000000000000000000000000000000000000000000000",
                None,
            ),
            (
                Slot::Memory(None),
                b"mem palette 000400 0100000000000000000000000000000000000000000000000000000000000000",
                NUMBER,
            ),
            (
                Slot::Memory(None),
                b"mem oam 0003e0 0100000000000000000000000000000000000000000000000000000000000000",
                None,
            ),
            (
                Slot::Memory(None),
                b"mem oam 000400 0100000000000000000000000000000000000000000000000000000000000000",
                NUMBER,
            ),
            (
                Slot::Memory(None),
                b"mem vram 017fc0 0100000000000000000000000000000000000000000000000000000000000000",
                None,
            ),
            (
                Slot::Memory(None),
                b"mem iwram 008000 0100000000000000000000000000000000000000000000000000000000000000",
                NUMBER,
            ),
            (
                Slot::Memory(None),
                b"mem vram 017fe0 0100000000000000000000000000000000000000000000000000000000000000",
                None,
            ),
            (
                Slot::Memory(None),
                b"mem vram 018000 0100000000000000000000000000000000000000000000000000000000000000",
                NUMBER,
            ),
            (
                Slot::Memory(None),
                b"mem backup 007fe0 0100000000000000000000000000000000000000000000000000000000000000",
                None,
            ),
            (
                Slot::Memory(None),
                b"mem backup 008000 0100000000000000000000000000000000000000000000000000000000000000",
                NUMBER,
            ),
        ],
    ),
    // their order goes before the range of an offset
    (
        "memories rise",
        &[
            (
                Slot::Memory(Some(MemoryPlace {
                    name: MemoryName::Wram,
                    offset: 0x20,
                })),
                b"mem wram 000040 0100000000000000000000000000000000000000000000000000000000000000",
                None,
            ),
            (
                Slot::Memory(Some(MemoryPlace {
                    name: MemoryName::Wram,
                    offset: 0x20,
                })),
                b"mem wram 000020 0100000000000000000000000000000000000000000000000000000000000000",
                SPELLING,
            ),
            (
                Slot::Memory(Some(MemoryPlace {
                    name: MemoryName::Wram,
                    offset: 0x20,
                })),
                b"mem wram 000010 0100000000000000000000000000000000000000000000000000000000000000",
                SPELLING,
            ),
            (
                Slot::Memory(Some(MemoryPlace {
                    name: MemoryName::Wram,
                    offset: 0x20,
                })),
                b"mem io 000000 0100000000000000000000000000000000000000000000000000000000000000",
                SPELLING,
            ),
            (
                Slot::Memory(Some(MemoryPlace {
                    name: MemoryName::Wram,
                    offset: 0x20,
                })),
                b"mem oam 000000 0100000000000000000000000000000000000000000000000000000000000000",
                None,
            ),
            (
                Slot::Memory(None),
                b"mem wram 040000 0000000000000000000000000000000000000000000000000000000000000000",
                SPELLING,
            ),
        ],
    ),
    // a sender that is there, and two numbers that make a signal
    (
        "signals",
        &[
            (
                Slot::Signals,
                b"signal 0 0000000000000058 0000000000000000",
                None,
            ),
            (
                Slot::Signals,
                b"signal 0 00001e0000000005 0000000000001234",
                None,
            ),
            (
                Slot::Signals,
                b"signal 0 00001a0000000005 0000000000001234",
                NUMBER,
            ),
            (
                Slot::Signals,
                b"signal 1 0000000000000058 0000000000000000",
                NUMBER,
            ),
            (
                Slot::Signals,
                b"signal 0 0000000000000000 0000000000000001",
                NUMBER,
            ),
            (
                Slot::Signals,
                b"signal 0 0000400000000000 0000000000000000",
                NUMBER,
            ),
            (
                Slot::Signals,
                b"signal 0 000000000000005A 0000000000000000",
                SPELLING,
            ),
            (Slot::Signals, b"signal 0 58 0", SPELLING),
        ],
    ),
];

#[test]
fn other_lines_are_read_or_refused(rt: HostRuntime) {
    for &(what, cases) in &OTHERS {
        are_right(&rt, what, cases);
    }
}
