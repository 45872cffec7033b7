//! A screen beside the bytes that its lines should have.

ghost use Rattle.std.specs.Prelude.{◌≡◌, ◌<◌};
ghost use Rattle.gba_mem.specs.Replacing.{part_length};

use gba_bus::Width::{self, Half};
use gba_flash::{FlashMachine, FlashState};
use gba_image::{Backup, Bios, ConsoleImages};
use gba_mem::{Memory, MemoryPart};
use gba_mixing_tests::Random;
use gba_ppu_mix::mix_line;
use gba_ppu_reg::PictureRegisters;
use gba_screen::Screen;
use std::alloc::Global;
use std::process::Abort;
use std::test::Fail;

/// The bytes of a frame.
const FRAME: usize = 76_800;

/// What is done to a console.
#[derive(Clone, Copy)]
pub(crate) enum What {
    /// Write a halfword to a register of the picture.
    Register(u32, u16),
    /// Write a number, and so many times the number of the frame, or of the line.
    OfFrame(u32, u16, u16),
    OfLine(u32, u16, u16),
    /// Write to memory, in a mode of the picture.
    Store(u32, u32, Width, u32),
    /// Write the number of the frame, or of the line.
    StoreFrame(u32, Width),
    StoreLine(u32, Width),
    /// Write the halfwords of OAM from an address up as they are.
    Copy(u32, u32),
    /// Write a random number to a random place of video memory, seldom a number that is there.
    Random,
}

/// What is replaced on a screen, which is no write of a program.
#[derive(Clone, Copy)]
pub(crate) enum Replaced {
    /// The first 1,024 bytes of a memory become these.
    Bytes(MemoryPart, u8),
    /// Every byte becomes 0.
    All,
    /// The flash awaits a byte.
    Machine,
}

/// How many bytes a memory has.
fn length_of(memory: &Memory, part: MemoryPart) -> usize
    ensures { result ≡ part_length part memory.now }
{
    match part {
        MemoryPart::Work => memory.work().len(),
        MemoryPart::Inner => memory.inner().len(),
        MemoryPart::Palette => memory.palette().len(),
        MemoryPart::Vram => memory.vram().len(),
        MemoryPart::Oam => memory.oam().len(),
        MemoryPart::Backup => memory.backup_bytes().len(),
    }
}

/// A screen, the picture's registers, and what the lines of the frame should be.
#[derive(Drop)]
pub(crate) struct Player {
    screen: Screen,
    registers: PictureRegisters,
    wanted: Vec<u8>,
    random: Random,
}

fn memory(alloc: Global) -> Result<Memory, Fail> {
    let bios = Bios::check(vec![in alloc; 0; 16_384]?)?;
    Ok(Memory::new(
        alloc,
        ConsoleImages {
            bios,
            cart: None,
            save: None,
            backup: Backup::Flash64,
        },
    )?)
}

impl Player {
    /// A player whose video memory is random.
    pub(crate) fn new(alloc: Global, seed: u64) -> Result<Player, Fail> {
        let mut player = Player {
            screen: Screen::new(alloc, memory(alloc)?)?,
            registers: PictureRegisters::new(),
            wanted: Vec::new(alloc),
            random: Random::after(seed),
        };
        player.fill(0x0500_0000, 0x200);
        player.fill(0x0600_0000, 0xC000);
        player.fill(0x0700_0000, 0x200);
        Ok(player)
    }

    /// Writes so many random halfwords.
    fn fill(&mut self, address: u32, count: u32) {
        for number in 0..count {
            let value = u32::from(self.random.half());
            self.screen.store(0, address.wrapping_add(number.wrapping_mul(2)), Half, value);
        }
    }

    /// Writes halfwords as they are.
    fn copy(&mut self, address: u32, count: u32) {
        for number in 0..count {
            let at = address.wrapping_add(number.wrapping_mul(2));
            let value = self.screen.memory().load(0x0800_0000, at, Half);
            self.screen.store(0, at, Half, value);
        }
    }

    fn store_anywhere(&mut self) {
        let region = 0x0500_0000 + 0x0100_0000 * u32::from(self.random.below(3));
        let address = region + u32::from(self.random.half());
        let width = if self.random.below(2) == 0 {
            Half
        } else {
            Width::Byte
        };
        let value = u32::from(self.random.half());
        self.screen
            .store(u32::from(self.random.below(6)), address, width, value);
    }

    pub(crate) fn play(&mut self, what: What, frame: u16, line: u16) {
        match what {
            What::Register(offset, value) => self.registers.write(offset, value),
            What::OfFrame(offset, value, factor) => {
                self.registers
                    .write(offset, value.wrapping_add(factor.wrapping_mul(frame)));
            }
            What::OfLine(offset, value, factor) => {
                self.registers
                    .write(offset, value.wrapping_add(factor.wrapping_mul(line)));
            }
            What::Store(mode, address, width, value) => self
                .screen
                .store(mode, address, width, value),
            What::StoreFrame(address, width) => self
                .screen
                .store(0, address, width, u32::from(frame)),
            What::StoreLine(address, width) => self
                .screen
                .store(0, address, width, u32::from(line)),
            What::Copy(address, count) => self.copy(address, count),
            What::Random => self.store_anywhere(),
        }
    }

    /// The colours of a line as they are now.
    fn mixed(&self, line: u32) -> [u16; 240]
        requires { line < 160 }
    {
        let mut colours = [0; 240];
        let memory = self.screen.memory();
        mix_line(
            &self.registers,
            memory.palette(),
            memory.vram(),
            memory.oam(),
            line,
            &mut colours,
        );
        colours
    }

    /// Draws a line, and mixes it for itself.
    pub(crate) fn draw<R: Abort>(&mut self, rt: &R, line: u32) -> Result<(), Fail>
        requires { line < 160 }
    {
        let colours = self.mixed(line);
        for colour in &colours {
            self.wanted.extend_from_slice(&colour.to_le_bytes())?;
        }
        assert_eq!(rt; self.screen.lines_drawn(), line);
        self.screen.draw_line(&self.registers, line);
        self.registers.next_line();
        Ok(())
    }

    /// Looks at a line, which has the bytes that were mixed for it.
    pub(crate) fn look<R: Abort>(&self, rt: &R, line: u32) {
        let mut bytes = [0; 480];
        assert!(rt; line < self.screen.lines_drawn());
        self.screen.line(line, &mut bytes);
        let from = 480 * line as usize;
        assert!(rt; from + 480 <= self.wanted.len());
        assert_eq!(rt;
            bytes.as_slice(),
            &self.wanted[from..from + 480],
            "line {line}"
        );
    }

    /// Replaces a part of what the lines are drawn of.
    pub(crate) fn replace<R: Abort>(&mut self, rt: &R, replaced: Replaced) {
        match replaced {
            Replaced::Bytes(part, byte) => {
                assert!(rt; length_of(self.screen.memory(), part) >= 1024);
                self.screen.set_bytes(part, 0, &[byte; 1024]);
            }
            Replaced::All => self.screen.clear(),
            Replaced::Machine => self.screen.restore_flash(FlashMachine {
                state: FlashState::Program,
                armed: false,
                identify: true,
                bank: 0,
            }),
        }
    }

    pub(crate) fn memory(&self) -> &Memory {
        self.screen.memory()
    }

    /// Makes so many lines of bytes of their own the lines that are drawn.
    pub(crate) fn set_lines<R: Abort>(
        &mut self,
        rt: &R,
        alloc: Global,
        count: u8,
    ) -> Result<(), Fail> {
        let mut lines = Vec::new(alloc);
        for line in 0..count {
            lines.push([line; 480])?;
        }
        assert!(rt; lines.len() <= 160);
        self.screen.set_lines(lines.as_slice());
        assert_eq!(rt; self.screen.lines_drawn(), u32::from(count));
        self.wanted.clear();
        for line in lines.as_slice() {
            self.wanted.extend_from_slice(line)?;
        }
        Ok(())
    }

    /// Ends the frame, and looks at all of it where it is kept.
    pub(crate) fn end_frame<R: Abort>(
        &mut self,
        rt: &R,
        alloc: Global,
        keeps: bool,
    ) -> Result<(), Fail> {
        if keeps {
            let mut frames = Vec::with_capacity(alloc, FRAME)?;
            assert_eq!(rt; self.screen.lines_drawn(), 160);
            self.screen.add_frame(&mut frames);
            assert!(rt; frames.as_slice() == self.wanted.as_slice());
        }
        self.screen.end_frame();
        assert_eq!(rt; self.screen.lines_drawn(), 0);
        self.wanted.clear();
        self.registers.reload();
        Ok(())
    }
}
