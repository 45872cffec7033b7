//! Lines of random states, against the plain program.

ghost use Rattle.std.specs.Prelude.{◌≡◌, ◌<◌, length};

use crate::memory::put_half;
use crate::numbers::Random;
use crate::plain::{BLDCNT, DISPCNT, Effect, Pixel, Region, WININ, WINOUT, pixel_line};
use crate::scene::mix;
use gba_ppu_reg::PictureRegisters;
use std::process::Abort;
use std::test::Fail;

/// How many states are tried.
const STATES: u32 = 1000;

/// How many states in a row have the same video memory.
const STATES_OF_A_MEMORY: u32 = 8;

/// How many places each effect and each region must have at least, in all states together.
const ENOUGH: u32 = 240;

/// WINxV of a window that has every line.
const ALL_LINES: u16 = 0x00A0;

fn fill(random: &mut Random, bytes: &mut [u8]) {
    for byte in bytes.iter_mut() {
        *byte = random.byte();
    }
}

fn fill_sparsely(random: &mut Random, bytes: &mut [u8]) {
    for byte in bytes.iter_mut() {
        *byte = random.sparse_byte();
    }
}

/// Makes the parameters in OAM such that affine sprites show several of their dots.
fn put_parameters<R: Abort>(rt: &R, random: &mut Random, oam: &mut [u8; 1024]) {
    for number in 0..128usize {
        put_half(rt, oam, 8 * number + 6, random.parameter());
    }
}

/// Writes a reference point's number from -64 up to 192, with 8 bits behind the point.
fn write_point(random: &mut Random, registers: &mut PictureRegisters, offset: u32)
    requires { offset < 0x100 }
{
    let point = u32::from(random.half()).wrapping_sub(0x4000);
    registers.write(offset, (point % 0x1_0000) as u16);
    registers.write(offset + 2, (point / 0x1_0000) as u16);
}

/// Writes a random halfword to each register.
fn write_all(random: &mut Random, registers: &mut PictureRegisters) {
    for number in 0..43u32 {
        registers.write(2 * number, random.half());
    }
}

fn write_parameters(random: &mut Random, registers: &mut PictureRegisters) {
    for offset in [0x020, 0x022, 0x024, 0x026, 0x030, 0x032, 0x034, 0x036] {
        registers.write(offset, random.parameter());
    }
}

/// Writes windows that have all lines in half of the states, and that show more than they hide.
fn write_windows(random: &mut Random, registers: &mut PictureRegisters) {
    for offset in [0x044, 0x046] {
        if random.below(2) == 0 {
            registers.write(offset, ALL_LINES);
        }
    }
    registers.write(WININ, random.mostly_set());
    registers.write(WINOUT, random.mostly_set());
}

/// Writes any effect, whose targets are most layers.
fn write_effect(random: &mut Random, registers: &mut PictureRegisters) {
    let targets = random.mostly_set() & 0x3F3F;
    let effect = random.half() & 0x00C0;
    registers.write(BLDCNT, targets | effect);
}

fn random_registers(random: &mut Random) -> PictureRegisters {
    let mut registers = PictureRegisters::new();
    write_all(random, &mut registers);
    write_parameters(random, &mut registers);
    for offset in [0x028, 0x02C, 0x038, 0x03C] {
        write_point(random, &mut registers, offset);
    }
    write_windows(random, &mut registers);
    write_effect(random, &mut registers);
    registers.write(DISPCNT, random.control());
    registers
}

/// How many places had an effect, or were in a region.
#[derive(Clone, Copy)]
struct Places {
    alpha: u32,
    semi_transparent: u32,
    brighter: u32,
    darker: u32,
    window0: u32,
    window1: u32,
    sprite_window: u32,
    outside: u32,
}

impl Places {
    const NONE: Places = Places {
        alpha: 0,
        semi_transparent: 0,
        brighter: 0,
        darker: 0,
        window0: 0,
        window1: 0,
        sprite_window: 0,
        outside: 0,
    };

    fn count_effect(&mut self, effect: Effect) {
        match effect {
            Effect::Unchanged => {}
            Effect::Alpha => self.alpha = self.alpha.saturating_add(1),
            Effect::SemiTransparent => {
                self.semi_transparent = self.semi_transparent.saturating_add(1)
            }
            Effect::Brighter => self.brighter = self.brighter.saturating_add(1),
            Effect::Darker => self.darker = self.darker.saturating_add(1),
        }
    }

    fn count_region(&mut self, region: Region) {
        match region {
            Region::Screen => {}
            Region::Window0 => self.window0 = self.window0.saturating_add(1),
            Region::Window1 => self.window1 = self.window1.saturating_add(1),
            Region::SpriteWindow => self.sprite_window = self.sprite_window.saturating_add(1),
            Region::Outside => self.outside = self.outside.saturating_add(1),
        }
    }

    fn count(&mut self, pixels: &[Pixel; 240]) {
        for pixel in pixels {
            self.count_effect(pixel.effect);
            self.count_region(pixel.region);
        }
    }

    fn assert_enough<R: Abort>(&self, rt: &R) {
        assert!(rt; self.alpha >= ENOUGH);
        assert!(rt; self.semi_transparent >= ENOUGH);
        assert!(rt; self.brighter >= ENOUGH);
        assert!(rt; self.darker >= ENOUGH);
        assert!(rt; self.window0 >= ENOUGH);
        assert!(rt; self.window1 >= ENOUGH);
        assert!(rt; self.sprite_window >= ENOUGH);
        assert!(rt; self.outside >= ENOUGH);
    }
}

fn assert_colours<R: Abort>(rt: &R, number: u32, colours: &[u16; 240], pixels: &[Pixel; 240]) {
    for x in 0..240usize {
        assert_eq!(rt; colours[x], pixels[x].colour, "place {x} of state {number}");
    }
}

/// Mixes a line of a random state by both programs.
fn try_state<R: Abort>(rt: &R, random: &mut Random, vram: &[u8], number: u32, places: &mut Places)
    requires { length vram.now ≡ 98304 }
{
    let registers = random_registers(random);
    let mut palette = [0; 1024];
    fill(random, &mut palette);
    let mut oam = [0; 1024];
    fill(random, &mut oam);
    put_parameters(rt, random, &mut oam);
    let line = u32::from(random.below(160));
    let pixels = pixel_line(&registers, &palette, vram, &oam, line);
    let mut colours = [0xFFFF; 240];
    mix(rt, &registers, &palette, vram, &oam, line, &mut colours);
    assert_colours(rt, number, &colours, &pixels);
    places.count(&pixels);
}

#[test]
fn random_states_mix_as_the_plain_program(rt: HostRuntime) -> Result<(), Fail> {
    let mut random = Random::after(0x2545_F491_4F6C_DD1D);
    let mut places = Places::NONE;
    let mut vram = vec![in rt.alloc(); 0u8; 98304]?;
    for number in 0..STATES {
        if number % STATES_OF_A_MEMORY == 0 {
            fill_sparsely(&mut random, &mut vram);
        }
        assert!(rt; vram.len() == 98304);
        try_state(&rt, &mut random, &vram, number, &mut places);
    }
    places.assert_enough(&rt);
    Ok(())
}
