//! The picture's position and registers.

use gba_ppu_reg::{PictureEvents, PictureRegisters, Position, Reference};
use std::process::Abort;
use std::test::Fail;

/// A place, cycles, the cycles at which HBlank and a line began, and the place after them. A place is a line and a dot.
type Way = ((u32, u32), u32, Option<u32>, Option<u32>, (u32, u32));

/// Places around the dots 1,006 and 1,232, and the last line.
static WAYS: [Way; 16] = [
    ((0, 1000), 10, Some(6), None, (0, 1010)),
    ((0, 1230), 5, None, Some(2), (1, 3)),
    ((3, 1004), 1, None, None, (3, 1005)),
    ((3, 1005), 1, Some(1), None, (3, 1006)),
    ((3, 1006), 1, None, None, (3, 1007)),
    ((3, 1005), 0, None, None, (3, 1005)),
    ((159, 1230), 1, None, None, (159, 1231)),
    ((159, 1231), 1, None, Some(1), (160, 0)),
    ((160, 0), 1, None, None, (160, 1)),
    ((227, 1231), 1, None, Some(1), (0, 0)),
    ((227, 1231), 512, None, Some(1), (0, 511)),
    ((10, 780), 512, Some(226), Some(452), (11, 60)),
    ((10, 720), 512, Some(286), Some(512), (11, 0)),
    ((10, 719), 512, Some(287), None, (10, 1231)),
    ((10, 494), 512, Some(512), None, (10, 1006)),
    ((10, 493), 512, None, None, (10, 1005)),
];

fn position_at<R: Abort>(rt: &R, line: u32, dot: u32) -> Position {
    assert!(rt; line < 228);
    assert!(rt; dot < 1232);
    Position { line, dot }
}

fn advance<R: Abort>(rt: &R, position: &mut Position, cycles: u32) -> PictureEvents {
    assert!(rt; position.line < 228);
    assert!(rt; position.dot < 1232);
    assert!(rt; cycles <= 512);
    position.advance(cycles)
}

fn step<R: Abort>(rt: &R, position: &mut Position) {
    assert!(rt; position.line < 228);
    assert!(rt; position.dot < 1232);
    position.cycle();
}

fn go<R: Abort>(rt: &R, (from, cycles, hblank, line_start, to): Way) {
    let mut position = position_at(rt, from.0, from.1);
    assert_eq!(rt;
        advance(rt, &mut position, cycles),
        PictureEvents { hblank, line_start }
    );
    assert_eq!(rt; (position.line, position.dot), to);
}

/// 616 times 456 cycles are a frame: 228 lines of 1,232.
#[test]
fn positions_move_as_worked_out(rt: HostRuntime) -> Result<(), Fail> {
    for one in &WAYS {
        go(&rt, *one);
    }
    let mut position = Position { line: 0, dot: 0 };
    let mut hblanks = 0u32;
    let mut lines = 0u32;
    for _ in 0..616 {
        let events = advance(&rt, &mut position, 456);
        hblanks = hblanks.saturating_add(u32::from(events.hblank.is_some()));
        lines = lines.saturating_add(u32::from(events.line_start.is_some()));
    }
    assert_eq!(rt; position, Position { line: 0, dot: 0 });
    assert_eq!(rt; (hblanks, lines), (228, 228));
    for _ in 0..280_895 {
        step(&rt, &mut position);
    }
    assert_eq!(rt;
        position,
        Position {
            line: 227,
            dot: 1231
        }
    );
    Ok(())
}

/// Dots and for how many cycles nothing comes from there.
static QUIET: [(u32, u32); 9] = [
    (0, 512),
    (493, 512),
    (494, 511),
    (1004, 1),
    (1005, 0),
    (1006, 225),
    (1230, 1),
    (1231, 0),
    (900, 105),
];

/// Dots, how many cycles are looked at, and for how many of them nothing comes: HBlank comes 1,006 cycles after
/// a line began.
static FAR: [(u32, u32, u32); 5] = [
    (0, 1024, 1005),
    (0, 7, 7),
    (300, 1024, 705),
    (1006, 1024, 225),
    (1231, 1024, 0),
];

fn skip_far<R: Abort>(rt: &R, dot: u32, most: u32, quiet: u32) {
    let mut position = position_at(rt, 7, dot);
    assert!(rt; position.line < 228);
    assert!(rt; position.dot < 1232);
    let cycles = position.quiet_within(most);
    assert_eq!(rt; cycles, quiet);
    position.skip(cycles);
    assert_eq!(rt;
        (position.line, position.dot),
        (7, dot.saturating_add(quiet))
    );
}

fn skip<R: Abort>(rt: &R, dot: u32, quiet: u32) {
    let mut position = position_at(rt, 7, dot);
    assert!(rt; position.line < 228);
    assert!(rt; position.dot < 1232);
    assert_eq!(rt; position.quiet(), quiet);
    position.skip(position.quiet());
    assert_eq!(rt;
        (position.line, position.dot),
        (7, dot.saturating_add(quiet))
    );
}

#[test]
fn positions_skip_where_nothing_comes(rt: HostRuntime) -> Result<(), Fail> {
    for (dot, quiet) in &QUIET {
        skip(&rt, *dot, *quiet);
    }
    for (dot, most, quiet) in &FAR {
        skip_far(&rt, *dot, *most, *quiet);
    }
    Ok(())
}

/// Places and what DISPSTAT reads there with line 160 to match and the VCount interrupt, and VCOUNT.
static STATUS: [((u32, u32), u16); 9] = [
    ((0, 0), 0xA020),
    ((0, 1005), 0xA020),
    ((0, 1006), 0xA022),
    ((159, 1231), 0xA022),
    ((160, 0), 0xA025),
    ((160, 1231), 0xA027),
    ((161, 0), 0xA021),
    ((226, 1006), 0xA023),
    ((227, 1231), 0xA022),
];

#[test]
fn status_reads_the_place(rt: HostRuntime) -> Result<(), Fail> {
    let mut registers = PictureRegisters::new();
    registers.write(0x004, 0xA020);
    for ((line, dot), status) in &STATUS {
        let at = position_at(&rt, *line, *dot);
        assert_eq!(rt; registers.read_at(0x004, &at), *status);
        assert_eq!(rt; u32::from(registers.read_at(0x006, &at)), *line);
    }
    let at = Position { line: 5, dot: 1006 };
    registers.write(0x004, 0x0538);
    assert_eq!(rt; at.flags(0x0538), 6);
    assert_eq!(rt; registers.read_at(0x004, &at), 0x053E);
    registers.write(0x000, 0x1443);
    assert_eq!(rt; registers.read_at(0x000, &at), 0x1443);
    assert_eq!(rt; registers.mode(), 3);
    Ok(())
}

/// Offsets, and what reads and what is stored after a write of FFFFh.
static MASKS: [(u32, u16, u16); 30] = [
    (0x000, 0xFFF7, 0xFFF7),
    (0x002, 0, 0),
    (0x004, 0xFF38, 0xFF38),
    (0x006, 0, 0),
    (0x008, 0xDFFF, 0xDFFF),
    (0x00A, 0xDFFF, 0xDFFF),
    (0x00C, 0xFFFF, 0xFFFF),
    (0x00E, 0xFFFF, 0xFFFF),
    (0x010, 0, 0x01FF),
    (0x01E, 0, 0x01FF),
    (0x020, 0, 0xFFFF),
    (0x026, 0, 0xFFFF),
    (0x028, 0, 0xFFFF),
    (0x02A, 0, 0x0FFF),
    (0x02C, 0, 0xFFFF),
    (0x02E, 0, 0x0FFF),
    (0x030, 0, 0xFFFF),
    (0x03A, 0, 0x0FFF),
    (0x03C, 0, 0xFFFF),
    (0x03E, 0, 0x0FFF),
    (0x040, 0, 0xFFFF),
    (0x046, 0, 0xFFFF),
    (0x048, 0x3F3F, 0x3F3F),
    (0x04A, 0x3F3F, 0x3F3F),
    (0x04C, 0, 0),
    (0x050, 0x3FFF, 0x3FFF),
    (0x052, 0x1F1F, 0x1F1F),
    (0x054, 0, 0x001F),
    (0x056, 0, 0),
    (0x009, 0, 0),
];

#[test]
fn picture_registers_keep_their_bits(rt: HostRuntime) -> Result<(), Fail> {
    for (offset, reads, keeps) in &MASKS {
        let mut registers = PictureRegisters::new();
        registers.write(*offset, 0xFFFF);
        assert_eq!(rt; registers.read(*offset), *reads);
        assert_eq!(rt; registers.kept(*offset), *keeps);
        assert_eq!(rt;
            registers.kept(0x00E),
            if *offset == 0x00E { 0xFFFF } else { 0 }
        );
    }
    Ok(())
}

/// The inner points of backgrounds 2 and 3.
fn points(registers: &PictureRegisters) -> (Reference, Reference) {
    (registers.reference(2), registers.reference(3))
}

fn point(x: u32, y: u32) -> Reference {
    Reference { x, y }
}

/// A point of 28 bits is signed. It grows by PB and PD, a write of either half makes it the whole new one, and so does
/// VBlank.
#[test]
fn reference_points_grow_and_return(rt: HostRuntime) -> Result<(), Fail> {
    let mut registers = PictureRegisters::new();
    registers.write(0x028, 0x1234);
    registers.write(0x02A, 0x0800);
    registers.write(0x03C, 0x5678);
    registers.write(0x03E, 0xF7FF);
    registers.write(0x022, 0x0100);
    registers.write(0x026, 0xFF00);
    registers.write(0x032, 0x8000);
    registers.write(0x036, 0x7FFF);
    assert_eq!(rt;
        points(&registers),
        (point(0xF800_1234, 0), point(0, 0x07FF_5678))
    );
    registers.next_line();
    registers.next_line();
    assert_eq!(rt;
        points(&registers),
        (
            point(0xF800_1434, 0xFFFF_FE00),
            point(0xFFFF_0000, 0x0800_5676)
        )
    );
    registers.write(0x02A, 0x0001);
    registers.write(0x038, 0x0007);
    assert_eq!(rt;
        points(&registers),
        (
            point(0x0001_1234, 0xFFFF_FE00),
            point(0x0000_0007, 0x0800_5676)
        )
    );
    registers.next_line();
    registers.reload();
    assert_eq!(rt;
        points(&registers),
        (point(0x0001_1234, 0), point(0x0000_0007, 0x07FF_5678))
    );
    Ok(())
}

/// Halfwords as they are stored: DISPCNT, PB and PD of background 2, its reference point's x, and BLDY.
const STORED: [(usize, u16); 6] = [
    (0x000, 0x0403),
    (0x022, 0x0100),
    (0x026, 0xFFFF),
    (0x028, 0x0010),
    (0x02A, 0x0001),
    (0x054, 0x001F),
];

/// The inner points needn't be the written ones.
#[test]
fn picture_registers_are_made_of_their_numbers(rt: HostRuntime) -> Result<(), Fail> {
    let mut halves = [0u16; 43];
    for (offset, value) in STORED {
        halves[offset / 2] = value;
    }
    let mut registers = PictureRegisters::of(&halves, point(5, 0), point(7, 0xFFFF_FFFF));
    for (offset, value) in STORED {
        assert_eq!(rt; registers.kept(offset as u32), value);
    }
    assert_eq!(rt; registers.kept(0x024), 0);
    assert_eq!(rt; registers.read(0x000), 0x0403);
    assert_eq!(rt; registers.mode(), 3);
    assert_eq!(rt; points(&registers), (point(5, 0), point(7, 0xFFFF_FFFF)));
    registers.next_line();
    assert_eq!(rt;
        points(&registers),
        (point(0x105, 0xFFFF_FFFF), point(7, 0xFFFF_FFFF))
    );
    registers.reload();
    assert_eq!(rt; points(&registers), (point(0x0001_0010, 0), point(0, 0)));
    Ok(())
}
