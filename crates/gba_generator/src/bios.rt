//! The BIOS image of a console.

ghost use Rattle.std.specs.Prelude.{◌≡◌, ◌<◌, IfOk, length, string_bytes};
ghost use Rattle.gba_generator.specs.Source.{bios as bios_of, code, seed as seed_of, source as source_of};

use gba_asm::{AsmRefused, assemble};
use gba_image::Bios;
use gba_terms::NoMemory;
use std::alloc::{AllocError, Global};

/// The bytes of a BIOS.
const BIOS_LENGTH: usize = 16_384;

/// All lines of the source but the last one.
const PROGRAM: &str = "        mov r4, #0x04000000\n\
\x20       add r5, r4, #0x100\n\
\x20       mov r0, #0\n\
\x20       strh r0, [r5, #0x34]\n\
\x20       ldr r0, mode\n\
\x20       strh r0, [r5, #0x28]\n\
\x20       ldr r6, seed\n\
\x20       ldr r7, factor\n\
\x20       ldr r8, adder\n\
again:  mla r9, r6, r7, r8\n\
\x20       mov r6, r9\n\
\x20       mov r0, r6, lsr #16\n\
\x20       strh r0, [r5, #0x2a]\n\
hold:   ldrh r0, [r5, #0x28]\n\
\x20       tst r0, #0x80\n\
\x20       bne hold\n\
\x20       tst r0, #8\n\
\x20       beq hold\n\
\x20       ldr r0, go\n\
\x20       strh r0, [r5, #0x28]\n\
\x20       b again\n\
mode:   .word 0x2003\n\
go:     .word 0x2083\n\
factor: .word 1664525\n\
adder:  .word 1013904223\n";

/// The first number of a console's sequence.
fn seed(number: u32, player: u32) -> u32
    requires { player < 4 }
    ensures { result ≡ seed_of number player }
{
    let sum = u64::from(number) * 2_654_435_761 + u64::from(player) * 40_503 + 1;
    (sum % 4_294_967_296) as u32
}

/// The source of a console's BIOS.
fn source(alloc: Global, number: u32, player: u32) -> Result<String, AllocError>
    requires { player < 4 }
    ensures { IfOk result (λ text. string_bytes text ≡ source_of number player) }
{
    let seed = seed(number, player);
    let text = format!(in alloc; "{PROGRAM}seed:   .word {seed}\n")?;
    Ok(text)
}

/// The code of a console's BIOS.
fn assembled(alloc: Global, number: u32, player: u32) -> Result<Vec<u8>, NoMemory>
    requires { player < 4 }
    ensures { IfOk result (λ bytes. bytes.items ≡ code number player) }
{
    let source = source(alloc, number, player)?;
    match assemble(alloc, source.as_bytes()) {
        Ok(bytes) => Ok(bytes),
        Err(AsmRefused::NoMemory) => Err(NoMemory),
        Err(AsmRefused::Source(_)) => unreachable!(),
    }
}

/// The BIOS image of a player's console, 0 to 3: the source of the generator with the player's seed, assembled, and
/// zeros up to the end. This project's profile.
pub fn make_bios(alloc: Global, number: u32, player: u32) -> Result<Bios, NoMemory>
    requires { player < 4 }
    ensures image { IfOk result (λ image. image ≡ bios_of number player) }
{
    let mut bytes = assembled(alloc, number, player)?;
    bytes.resize(BIOS_LENGTH, 0)?;
    match Bios::check(bytes) {
        Ok(image) => Ok(image),
        Err(_) => unreachable!(),
    }
}
