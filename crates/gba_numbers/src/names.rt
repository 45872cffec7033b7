//! The names of registers and of memories.

ghost use Rattle.std.specs.Prelude.{◌≡◌, ◌≤◌, ◌<◌, [], length, slice_index_or};
ghost use Rattle.gba_terms.specs.RegisterNames.{register_names};

/// A memory by its name in a frozen file, in the order of the file. `Backup` is the SRAM or the flash, and `Io` the I/O
/// registers, which stand in no memory.
#[derive(Clone, Copy, Debug, PartialEq, Eq)]
pub enum MemoryName {
    Io,
    Wram,
    Iwram,
    Palette,
    Vram,
    Oam,
    Backup,
}

/// The name of a register, by its place among the 37.
#[tactic(auto, unfolding(gba_terms::specs::RegisterNames::register_names))]
pub fn register_name(place: u32) -> &'static [u8]
    requires { place < 37 }
    ensures name { result.now ≡ slice_index_or register_names place [] }
    ensures short { length result.now ≤ 8 }
{
    match place {
        0 => b"r0",
        1 => b"r1",
        2 => b"r2",
        3 => b"r3",
        4 => b"r4",
        5 => b"r5",
        6 => b"r6",
        7 => b"r7",
        8 => b"r8",
        9 => b"r9",
        10 => b"r10",
        11 => b"r11",
        12 => b"r12",
        13 => b"r13",
        14 => b"r14",
        15 => b"r15",
        16 => b"r8_fiq",
        17 => b"r9_fiq",
        18 => b"r10_fiq",
        19 => b"r11_fiq",
        20 => b"r12_fiq",
        21 => b"r13_fiq",
        22 => b"r14_fiq",
        23 => b"r13_irq",
        24 => b"r14_irq",
        25 => b"r13_svc",
        26 => b"r14_svc",
        27 => b"r13_abt",
        28 => b"r14_abt",
        29 => b"r13_und",
        30 => b"r14_und",
        31 => b"cpsr",
        32 => b"spsr_fiq",
        33 => b"spsr_irq",
        34 => b"spsr_svc",
        35 => b"spsr_abt",
        _ => b"spsr_und",
    }
}
