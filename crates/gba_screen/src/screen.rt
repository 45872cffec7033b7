//! The screen.

ghost use Rattle.std.specs.Prelude.{◌≡◌, ◌+◌, ◌≤◌, ◌++◌, IfOk, drop, length, vec_len, vec_capacity};

use crate::lines::draw;
use crate::paying::{NONE_PAID, Paid, pay, pay_before, settle};
use gba_bus::Width;
use gba_flash::FlashMachine;
use gba_mem::laws::stores_keep_video;
use gba_mem::{Memory, MemoryPart, is_in_video};
use gba_ppu_reg::PictureRegisters;
use gba_terms::NoMemory;
use std::alloc::{AllocError, Global};
use std::marker::Model;

/// So many lines of no bytes yet.
fn blank_lines(alloc: Global, count: usize) -> Result<Vec<[u8; 480]>, AllocError>
    ensures { IfOk result (λ lines. vec_len lines ≡ count) }
{
    vec![in alloc; [0; 480]; count]
}

/// So many keys.
fn first_keys(alloc: Global, count: usize) -> Result<Vec<PictureRegisters>, AllocError>
    ensures { IfOk result (λ keys. vec_len keys ≡ count) }
{
    vec![in alloc; PictureRegisters::new(); count]
}

/// Adds bytes, for which there is room.
fn add_bytes(bytes: &mut Vec<u8>, more: &[u8])
    requires { vec_len bytes.old + length more.now ≤ vec_capacity bytes.old }
    ensures items { bytes.new.items ≡ bytes.old.items ++ more.now }
    ensures len { vec_len bytes.new ≡ vec_len bytes.old + length more.now }
    ensures room { vec_capacity bytes.old ≤ vec_capacity bytes.new }
{
    if bytes.extend_from_slice(more).is_err() {
        unreachable!()
    }
}

/// Puts these lines in the place of the first ones.
fn put_lines(all: &mut [[u8; 480]], lines: &[[u8; 480]])
    requires { length lines.now ≤ length all.old }
    ensures { all.new ≡ lines.now ++ drop (length lines.now) all.old }
{
    all[..lines.len()].copy_from_slice(lines);
}

/// The memories of a console, and the lines that are drawn of the present frame. Contracts see both: a line is drawn
/// once and stays as it was. The bytes of a line are made later, where someone looks at them or where what it was drawn
/// of is about to change, and not at all where neither comes.
#[derive(Drop)]
pub struct Screen {
    memory: Memory,
    // the bytes of the 160 lines, and the registers at the HBlank of each
    lines: Vec<[u8; 480]>,
    keys: Vec<PictureRegisters>,
    // how many lines of this frame are drawn
    drawn: u32,
    // of how many of them the bytes stand, and how many of the lines that were paid last are fresh
    paid: Paid,
}

impl Model for Screen {
    ghost use Rattle.std.specs.Prelude.{◌≡◌, ◌≤◌, vec_len};
    ghost use Rattle.gba_screen.specs.Paying.{AreFresh, shown_lines};
    ghost use Rattle.gba_screen.specs.Screen.{Screen};

    ghost Value = { Screen };

    ghost view = { λ s. record {
      memory = s.memory;
      lines = shown_lines s.lines.items s.keys.items s.memory s.paid.lines s.drawn;
    } };

    ghost invariant = { λ s.
        (vec_len s.lines ≡ 160) × (vec_len s.keys ≡ 160) × (s.paid.lines ≤ s.drawn) × (s.drawn ≤ 160)
        × (s.paid.fresh ≤ 160) × AreFresh s.lines.items s.keys.items s.memory s.paid.lines s.paid.fresh };
}

impl Screen {
    ghost use Rattle.std.specs.Prelude.{◌≡◌, ℕ, ◌+◌, ◌<◌, ◌≤◌, ◌++◌, [], true, false, IfOk, length, slice_index_or, vec_len, vec_capacity};
    ghost use Rattle.std.specs.List.{concat};
    ghost use Rattle.gba_bus.specs.Regions.{is_inner, region_of};
    ghost use Rattle.gba_mem.specs.Video.{is_video};
    ghost use Rattle.gba_mem.specs.Replacing.{part_length};
    ghost use Rattle.gba_mem.specs.Backups.{backup_of};
    ghost use Rattle.gba_flash.specs.Soundness.{IsSoundMachine};
    ghost use Rattle.gba_screen.specs.Screen.{blank_screen, frame_ended, screen_cleared, screen_written, screen_with_machine, screen_with_part, with_line, with_lines};

    /// A screen with these memories, of which no line is drawn. They are dropped on refusal.
    pub fn new(alloc: Global, memory: Memory) -> Result<Screen, NoMemory>
        ensures { IfOk result (λ screen. screen ≡ blank_screen memory) }
    {
        let lines = blank_lines(alloc, 160)?;
        let keys = first_keys(alloc, 160)?;
        Ok(Screen {
            memory,
            lines,
            keys,
            drawn: 0,
            paid: NONE_PAID,
        })
    }

    /// The memories.
    #[inline]
    pub fn memory(&self) -> &Memory
        ensures { result.now ≡ self.now.memory }
    {
        &self.memory
    }

    /// How many lines of the present frame are drawn, 160 at most.
    pub fn lines_drawn(&self) -> u32
        ensures value { result ≡ length self.now.lines }
        ensures most { result ≤ 160 }
    {
        self.drawn
    }

    /// Makes these the bytes of a line that is drawn.
    pub fn line(&self, line: u32, bytes: &mut [u8; 480])
        requires { line < length self.now.lines }
        ensures { bytes.new ≡ slice_index_or self.now.lines line [] }
    {
        if line < self.paid.lines {
            *bytes = self.lines[line as usize];
        } else {
            draw(&self.keys[line as usize], &self.memory, line, bytes);
        }
    }

    /// Writes in the inner RAM, whatever the mode of the picture.
    #[inline]
    pub fn store_inner(&mut self, address: u32, width: Width, value: u32)
        requires { is_inner (region_of address) ≡ true }
        ensures { (mode : ℕ) → self.new ≡ screen_written mode address width value self.old }
    {
        stores_keep_video();
        self.memory.store_inner(address, width, value);
    }

    /// Writes outside video memory.
    #[inline]
    fn store_beside(&mut self, mode: u32, address: u32, width: Width, value: u32)
        requires { is_video (region_of address) ≡ false }
        ensures { self.new ≡ screen_written mode address width value self.old }
    {
        stores_keep_video();
        self.memory.store(mode, address, width, value);
    }

    /// Pays the lines that are drawn, and writes.
    fn change(&mut self, mode: u32, address: u32, width: Width, value: u32)
        ensures { self.new ≡ screen_written mode address width value self.old }
    {
        self.paid = settle(
            &self.memory,
            self.keys.as_slice(),
            self.lines.as_mut_slice(),
            self.paid,
            self.drawn,
        );
        self.memory.store(mode, address, width, value);
    }

    /// Writes in video memory: the lines that are drawn are paid first, if something changes.
    #[inline(never)]
    fn store_video(&mut self, mode: u32, address: u32, width: Width, value: u32)
        requires { is_video (region_of address) ≡ true }
        ensures { self.new ≡ screen_written mode address width value self.old }
    {
        if self.paid.lines == self.drawn && self.paid.fresh == 0 {
            self.memory.store(mode, address, width, value);
            return;
        }
        if self.memory.keeps(mode, address, width, value) {
            return;
        }
        self.change(mode, address, width, value);
    }

    /// Writes at an address that is no register's, as [`Memory::store`] does. The lines that are drawn stay
    /// as they are.
    #[inline]
    pub fn store(&mut self, mode: u32, address: u32, width: Width, value: u32)
        ensures { self.new ≡ screen_written mode address width value self.old }
    {
        if is_in_video(address) {
            self.store_video(mode, address, width, value);
        } else {
            self.store_beside(mode, address, width, value);
        }
    }

    /// Draws the next line of the frame, from 0 to 159, by these registers and the memories as they are.
    pub fn draw_line(&mut self, r: &PictureRegisters, line: u32)
        requires next { length self.old.lines ≡ line }
        requires line { line < 160 }
        ensures { self.new ≡ with_line r.now line self.old }
    {
        self.paid = pay_before(
            &self.memory,
            self.keys.as_slice(),
            self.lines.as_mut_slice(),
            self.paid,
            line,
            r,
        );
        self.keys[line as usize] = *r;
        self.drawn += 1;
    }

    /// Adds the bytes of a frame whose 160 lines are all drawn, for which there is room.
    pub fn add_frame(&mut self, frames: &mut Vec<u8>)
        requires whole { length self.old.lines ≡ 160 }
        requires room { vec_len frames.old + 76800 ≤ vec_capacity frames.old }
        ensures same { self.new ≡ self.old }
        ensures items { frames.new.items ≡ frames.old.items ++ concat self.old.lines }
        ensures len { vec_len frames.new ≡ vec_len frames.old + 76800 }
        ensures room { vec_capacity frames.old ≤ vec_capacity frames.new }
    {
        let fresh = pay(
            &self.memory,
            self.keys.as_slice(),
            self.lines.as_mut_slice(),
            self.paid,
            self.drawn,
        );
        self.paid = Paid {
            lines: self.drawn,
            fresh,
        };
        add_bytes(frames, self.lines.as_slice().as_flattened());
    }

    /// Begins the next frame, which has no line yet.
    pub fn end_frame(&mut self)
        ensures { self.new ≡ frame_ended self.old }
    {
        self.paid = self.paid.of_next_frame();
        self.drawn = 0;
    }

    /// Replaces bytes of a memory from a place on, as [`Memory::set_bytes`] does. The lines that are drawn stay
    /// as they are.
    pub fn set_bytes(&mut self, part: MemoryPart, place: usize, bytes: &[u8])
        requires { place + length bytes.now ≤ part_length part self.old.memory }
        ensures { self.new ≡ screen_with_part part place bytes.now self.old }
    {
        self.paid = settle(
            &self.memory,
            self.keys.as_slice(),
            self.lines.as_mut_slice(),
            self.paid,
            self.drawn,
        );
        self.memory.set_bytes(part, place, bytes);
    }

    /// Makes every byte of the memories that are written 0, as [`Memory::clear`] does. The lines that are drawn stay
    /// as they are.
    pub fn clear(&mut self)
        ensures { self.new ≡ screen_cleared self.old }
    {
        self.paid = settle(
            &self.memory,
            self.keys.as_slice(),
            self.lines.as_mut_slice(),
            self.paid,
            self.drawn,
        );
        self.memory.clear();
    }

    /// Lets the flash go on from where a machine has come, as [`Memory::restore_flash`] does.
    pub fn restore_flash(&mut self, machine: FlashMachine)
        requires { IsSoundMachine (backup_of self.old.memory.backup) machine }
        ensures { self.new ≡ screen_with_machine machine self.old }
    {
        self.memory.restore_flash(machine);
    }

    /// Makes these the lines that are drawn of the present frame, from the top down, 160 at most. The memories stay.
    pub fn set_lines(&mut self, lines: &[[u8; 480]])
        requires { length lines.now ≤ 160 }
        ensures { self.new ≡ with_lines lines.now self.old }
    {
        put_lines(self.lines.as_mut_slice(), lines);
        self.drawn = lines.len() as u32;
        self.paid = Paid {
            lines: self.drawn,
            fresh: 0,
        };
    }
}
