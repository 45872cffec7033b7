//! Each kind of line as it is printed.

use gba_frozen::{MemoryPlace, Row};
use gba_frozen_print::{
    add_digest, add_drawn, add_end, add_memory, add_queue, add_row, add_signal, add_version,
    add_wave,
};
use gba_numbers::MemoryName;
use link_node::unpack;
use std::test::Fail;

#[test]
#[tactic(auto, unfolding(gba_frozen::specs::Rows::is_row, gba_frozen::specs::Rows::count_of, gba_frozen::specs::Rows::spelling_of))]
fn rows_are_printed(rt: HostRuntime) -> Result<(), Fail> {
    let mut into = Vec::with_capacity(rt.alloc(), 2000)?;
    add_row(&mut into, Row::Heading, &[]);
    add_row(&mut into, Row::Console(3), &[]);
    add_row(&mut into, Row::Register(24), &[0xD3]);
    add_row(&mut into, Row::Dma(2), &[1, 0, 4294967295, 7, 65536]);
    add_row(&mut into, Row::Affine(3), &[0, 0x8000_0001]);
    let wanted =
        b"gbalink-state 1\nconsole 3\nr14_irq 000000d3\ndma 2 1 0 4294967295 7 65536\naffine 3 00000000 80000001\n";
    assert_eq!(rt; into.as_slice(), wanted.as_slice());
    Ok(())
}

#[test]
fn other_lines_are_printed(rt: HostRuntime) -> Result<(), Fail> {
    let mut into = Vec::with_capacity(rt.alloc(), 2000)?;
    add_version(&mut into);
    add_digest(&mut into, &[0x1F; 32]);
    add_queue(&mut into, 0, 0, &[]);
    add_queue(&mut into, 1, 0x7F, &[1, 0xFF]);
    add_wave(&mut into, 1, &[0xA0; 16]);
    let place = MemoryPlace {
        name: MemoryName::Palette,
        offset: 0x3E0,
    };
    add_memory(&mut into, place, &[0x0C; 32]);
    add_end(&mut into);
    let wanted =
        b"gbalink-frozen 1\njob 1f1f1f1f1f1f1f1f1f1f1f1f1f1f1f1f1f1f1f1f1f1f1f1f1f1f1f1f1f1f1f1f\nqueue A 00 0 -\nqueue B 7f 2 01ff\nwave 1 a0a0a0a0a0a0a0a0a0a0a0a0a0a0a0a0\nmem palette 0003e0 0c0c0c0c0c0c0c0c0c0c0c0c0c0c0c0c0c0c0c0c0c0c0c0c0c0c0c0c0c0c0c0c\nend\n";
    assert_eq!(rt; into.as_slice(), wanted.as_slice());
    Ok(())
}

#[test]
fn a_signal_is_printed(rt: HostRuntime) -> Result<(), Fail> {
    let mut into = Vec::with_capacity(rt.alloc(), 100)?;
    let signal = unpack(0x1E_0000_0000_05, 0x1234).ok_or("no signal")?;
    add_signal(&mut into, 2, &signal);
    let wanted = b"signal 2 00001e0000000005 0000000000001234\n";
    assert_eq!(rt; into.as_slice(), wanted.as_slice());
    Ok(())
}

/// The colours of a line.
static COLOURS: [u16; 240] = [0x7FE0; 240];

#[test]
fn a_drawn_line_is_printed(rt: HostRuntime) -> Result<(), Fail> {
    let mut into = Vec::with_capacity(rt.alloc(), 1000)?;
    add_drawn(&mut into, 158, COLOURS.as_slice());
    assert_eq!(rt; into.len(), 971);
    assert!(rt; into.starts_with(b"drawn 158 7fe07fe0"));
    assert!(rt; into.ends_with(b"7fe0\n"));
    Ok(())
}
