//! The devices and the registers.

use crate::made::{io_of, numbers_of};
use gba_dma::Channel;
use gba_irq::Interrupts;
use gba_loose_devices::{
    are_sound_devices, board, channels, devices, has_status, interrupts, keypad, picture, place,
    registers, runs_are_enabled, sound, timers, tones, tones_are_sound,
};
use gba_numbers::{BoardField, Field};
use gba_ppu_reg::{Position, Reference};
use gba_serial::Seat;
use gba_timer::Timer;
use std::process::Abort;
use std::test::Fail;

/// Numbers of each device, no two alike.
static NUMBERS: [(Field, u64); 40] = [
    (Field::Clock, 123_456),
    (Field::Register(0), 0xDEAD_BEEF),
    (Field::Register(15), 0x0800_0004),
    (Field::Register(31), 0x6000_001F),
    (Field::Board(BoardField::Halted), 1),
    (Field::Board(BoardField::TimerCounter(1)), 0x1234),
    (Field::Board(BoardField::TimerReload(1)), 0xFC00),
    (Field::Board(BoardField::TimerControl(1)), 0x00C1),
    (Field::Board(BoardField::TimerPhase(1)), 17),
    (Field::Board(BoardField::TimerCounter(3)), 0xFFFF),
    (Field::Board(BoardField::DmaActive(2)), 1),
    (Field::Board(BoardField::DmaSource(2)), 0x0200_0010),
    (Field::Board(BoardField::DmaTarget(2)), 0x0300_0020),
    (Field::Board(BoardField::DmaLeft(2)), 5),
    (Field::Board(BoardField::DmaFirst(3)), 1),
    (Field::Board(BoardField::QueueCurrent(0)), 0x7F),
    (Field::Board(BoardField::QueueLength(0)), 2),
    (Field::QueueByte { queue: 0, place: 0 }, 0x81),
    (Field::QueueByte { queue: 0, place: 1 }, 0x82),
    (Field::Board(BoardField::QueueCurrent(1)), 0x80),
    (Field::Board(BoardField::Sequencer), 0x1_2345),
    (Field::Board(BoardField::Tone { tone: 1, part: 0 }), 1),
    (Field::Board(BoardField::Tone { tone: 1, part: 1 }), 3),
    (Field::Board(BoardField::Tone { tone: 1, part: 2 }), 5),
    (Field::Board(BoardField::Tone { tone: 1, part: 3 }), 64),
    (Field::Board(BoardField::Tone { tone: 2, part: 4 }), 15),
    (Field::Board(BoardField::Tone { tone: 3, part: 1 }), 63),
    (Field::Board(BoardField::Tone { tone: 4, part: 1 }), 0x7FFF),
    (Field::Board(BoardField::Tone { tone: 4, part: 7 }), 2047),
    (
        Field::Board(BoardField::WaveByte { bank: 0, place: 15 }),
        0xF5,
    ),
    (
        Field::Board(BoardField::WaveByte { bank: 1, place: 0 }),
        0xA5,
    ),
    (Field::Board(BoardField::Line), 100),
    (Field::Board(BoardField::Dot), 500),
    (Field::Board(BoardField::ReferenceX(2)), 0x0000_0800),
    (Field::Board(BoardField::ReferenceY(2)), 0x0000_0900),
    (Field::Board(BoardField::ReferenceX(3)), 0x0000_0A00),
    (Field::Board(BoardField::ReferenceY(3)), 0xFFFF_F000),
    (Field::Frames, 7),
    (Field::Samples, 241),
    (Field::Words, 3),
];

/// What stands in the I/O registers beside these numbers. DISPSTAT chooses line 100 and asks for its interrupt, so the
/// place shows the match there; of SOUND3CNT_L bank 0 plays, so the bytes of bank 1 stand at 090h; channel 1 is on in
/// SOUNDCNT_X; key A is pressed, so its bit of KEYINPUT is 0 (GBATEK, LCD I/O Interrupts and Status, GBA Sound
/// Controller, GBA Keypad Input).
static HALVES: [(u32, u16); 34] = [
    (0x000, 0x0403),
    (0x004, 0x6424),
    (0x006, 0x0064),
    (0x008, 0x1F08),
    (0x020, 0x0100),
    (0x03E, 0x0FFF),
    (0x054, 0x0010),
    (0x062, 0xF1C0),
    (0x064, 0x03E8),
    (0x06C, 0x0155),
    (0x070, 0x0080),
    (0x072, 0x2000),
    (0x078, 0x7200),
    (0x07C, 0x0043),
    (0x080, 0x5577),
    (0x082, 0x030E),
    (0x084, 0x0081),
    (0x088, 0x0200),
    (0x090, 0x00A5),
    (0x0C8, 0x0004),
    (0x0CA, 0x0200),
    (0x0CC, 0x0008),
    (0x0CE, 0x0300),
    (0x0D0, 0x0010),
    (0x0D2, 0x8400),
    (0x104, 0xFC00),
    (0x106, 0x00C1),
    (0x130, 0x03FE),
    (0x132, 0x4001),
    (0x200, 0x0009),
    (0x202, 0x0008),
    (0x204, 0x4317),
    (0x208, 0x0001),
    (0x300, 0x0001),
];

#[test]
fn show_what_they_are_made_of(rt: HostRuntime) -> Result<(), Fail> {
    let numbers = numbers_of(&rt, &NUMBERS);
    let io = io_of(&rt, &HALVES);
    assert!(rt; are_sound_devices(&numbers, &io));
    let made = devices(&numbers, &io);
    for offset in 0..512 {
        let place = 2 * offset as usize;
        let half = u16::from_le_bytes([io[place], io[place + 1]]);
        assert_eq!(rt; made.half_listed(2 * offset), half);
    }
    assert_eq!(rt; made.clock(), 123_456);
    let set = made.set();
    assert!(rt; set.halted() && set.master() && set.pending());
    assert_eq!(rt; set.waits(), 0x4317);
    assert_eq!(rt; set.priced(), 0x4317);
    assert_eq!(rt; set.queue(0), [0x81, 0x82].as_slice());
    assert_eq!(rt; set.queue_current(0), 0x7F);
    assert_eq!(rt; set.queue_current(1), 0x80);
    assert_eq!(rt; made.sequencer(), 0x1_2345);
    assert_eq!(rt; made.wave_bank(0)[15], 0xF5);
    assert_eq!(rt; made.wave_bank(1)[0], 0xA5);
    assert_eq!(rt;
        made.place(),
        Position {
            line: 100,
            dot: 500
        }
    );
    Ok(())
}

#[test]
fn timers_and_channels_have_their_numbers(rt: HostRuntime) -> Result<(), Fail> {
    let numbers = numbers_of(&rt, &NUMBERS);
    let io = io_of(&rt, &HALVES);
    let timer = Timer {
        counter: 0x1234,
        reload: 0xFC00,
        control: 0x00C1,
        phase: 17,
    };
    assert_eq!(rt; timers(&numbers).timer(1), timer);
    assert_eq!(rt; timers(&numbers).timer(3).counter, 0xFFFF);
    let channel = Channel {
        source: 0x0200_0004,
        target: 0x0300_0008,
        count: 0x0010,
        control: 0x8400,
        active: true,
        first: false,
        inner_source: 0x0200_0010,
        inner_target: 0x0300_0020,
        left: 5,
    };
    assert!(rt; runs_are_enabled(&numbers, &io));
    let made = channels(&numbers, &io);
    assert_eq!(rt; made.channel(2), channel);
    assert!(rt; made.channel(3).first && !made.channel(3).active);
    // An active channel that isn't enabled is none.
    assert!(rt; !runs_are_enabled(&numbers, &[0; 1024]));
    assert!(rt; !are_sound_devices(&numbers, &[0; 1024]));
    Ok(())
}

#[test]
fn registers_of_devices_have_their_numbers(rt: HostRuntime) -> Result<(), Fail> {
    let numbers = numbers_of(&rt, &NUMBERS);
    let io = io_of(&rt, &HALVES);
    let made = Interrupts {
        enabled: 0x0009,
        raised: 0x0008,
        master: true,
    };
    assert_eq!(rt; interrupts(&io), made);
    assert_eq!(rt; keypad(&io).pressed(), 1);
    assert_eq!(rt; keypad(&io).chosen(), 0x4001);
    assert_eq!(rt;
        place(&numbers),
        Position {
            line: 100,
            dot: 500
        }
    );
    let made = picture(&numbers, &io);
    assert_eq!(rt; made.kept(0x004), 0x6420);
    assert_eq!(rt; made.kept(0x006), 0);
    let near = Reference {
        x: 0x0800,
        y: 0x0900,
    };
    let far = Reference {
        x: 0x0A00,
        y: 0xFFFF_F000,
    };
    assert_eq!(rt; made.reference(2), near);
    assert_eq!(rt; made.reference(3), far);
    Ok(())
}

#[test]
fn sound_has_its_numbers(rt: HostRuntime) -> Result<(), Fail> {
    let numbers = numbers_of(&rt, &NUMBERS);
    let io = io_of(&rt, &HALVES);
    assert_eq!(rt; sound(&numbers, &io).current(1), 0x80);
    assert!(rt; tones_are_sound(&numbers, &io));
    let made = tones(&numbers, &io);
    assert_eq!(rt; made.on(), 1);
    assert_eq!(rt; made.tone(0).left, 64);
    assert_eq!(rt; made.tone(1).volume, 15);
    assert_eq!(rt; made.tone(2).place, 63);
    assert_eq!(rt; made.tone(3).shadow, 2047);
    assert_eq!(rt; made.kept(0x082), 2);
    // While the master enable is 0 the sequencer has to be 0.
    let silent = numbers_of(&rt, &[(Field::Board(BoardField::Sequencer), 1)]);
    assert!(rt; !tones_are_sound(&silent, &[0; 1024]));
    // A tone that is on waits.
    let first = Field::Board(BoardField::Tone { tone: 1, part: 0 });
    let still = numbers_of(&rt, &[(first, 1)]);
    assert!(rt; !tones_are_sound(&still, &io));
    Ok(())
}

#[test]
fn the_processor_has_its_registers(rt: HostRuntime) -> Result<(), Fail> {
    let numbers = numbers_of(&rt, &NUMBERS);
    assert!(rt; has_status(&numbers));
    let all = registers(&numbers).all();
    assert_eq!(rt; all[0], 0xDEAD_BEEF);
    assert_eq!(rt; all[15], 0x0800_0004);
    assert_eq!(rt; all[31], 0x6000_001F);
    assert_eq!(rt; all[36], 0);
    Ok(())
}

#[test]
fn a_board_has_its_counts(rt: HostRuntime) -> Result<(), Fail> {
    let numbers = numbers_of(&rt, &NUMBERS);
    let io = io_of(&rt, &HALVES);
    let seat = Seat {
        player: 1,
        count: 2,
        round: 64,
    };
    assert!(rt; are_sound_devices(&numbers, &io));
    let made = board(seat, &numbers, &io);
    assert_eq!(rt; made.counts.frames, 7);
    assert_eq!(rt; made.counts.samples, 241);
    assert_eq!(rt; made.counts.words, 3);
    assert_eq!(rt; made.serial.seat(), seat);
    assert_eq!(rt; made.devices.clock(), 123_456);
    Ok(())
}
