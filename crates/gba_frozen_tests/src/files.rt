//! A whole small frozen file of one console, line by line, and one of two.

ghost use Rattle.std.specs.Prelude.{◌≤◌};

use gba_frozen::Setup;
use gba_image::Backup;

/// How many lines the file has; its lines of memory, its drawn lines, its signal, and its last line.
pub(crate) const COUNT: usize = 75;

pub(crate) const MEMORY: usize = 65;

pub(crate) const WAS: usize = 68;

pub(crate) const DRAWN: usize = 71;

pub(crate) const SIGNAL: usize = 73;

pub(crate) const END: usize = 74;

/// The lines of the file: the processor's, the devices', and those from the memories on.
static LINES: [&[u8]; COUNT] = [
    b"gbalink-frozen 1\n",
    b"job 1111111111111111111111111111111111111111111111111111111111111111\n",
    b"gbalink-state 1\n",
    b"console 0\n",
    b"clock 600\n",
    b"halted 0\n",
    b"r0 00000000\n",
    b"r1 00000000\n",
    b"r2 00000000\n",
    b"r3 00000000\n",
    b"r4 00000000\n",
    b"r5 00000000\n",
    b"r6 00000000\n",
    b"r7 00000000\n",
    b"r8 00000000\n",
    b"r9 00000000\n",
    b"r10 00000000\n",
    b"r11 00000000\n",
    b"r12 00000000\n",
    b"r13 00000000\n",
    b"r14 00000000\n",
    b"r15 00000000\n",
    b"r8_fiq 00000000\n",
    b"r9_fiq 00000000\n",
    b"r10_fiq 00000000\n",
    b"r11_fiq 00000000\n",
    b"r12_fiq 00000000\n",
    b"r13_fiq 00000000\n",
    b"r14_fiq 00000000\n",
    b"r13_irq 00000000\n",
    b"r14_irq 00000000\n",
    b"r13_svc 00000000\n",
    b"r14_svc 00000000\n",
    b"r13_abt 00000000\n",
    b"r14_abt 00000000\n",
    b"r13_und 00000000\n",
    b"r14_und 00000000\n",
    b"cpsr 000000d3\n",
    b"spsr_fiq 00000000\n",
    b"spsr_irq 00000000\n",
    b"spsr_svc 00000000\n",
    b"spsr_abt 00000000\n",
    b"spsr_und 00000000\n",
    b"timer 0 0 0 0 0\n",
    b"timer 1 0 0 0 0\n",
    b"timer 2 0 0 0 0\n",
    b"timer 3 0 0 0 0\n",
    b"dma 0 0 0 0 0 0\n",
    b"dma 1 0 0 0 0 0\n",
    b"dma 2 0 0 0 0 0\n",
    b"dma 3 0 0 0 0 0\n",
    b"queue A 00 0 -\n",
    b"queue B 7f 2 01ff\n",
    b"sequencer 0\n",
    b"tone 1 0 0 0 0 0 0 0 0\n",
    b"tone 2 0 0 0 0 0 0 0 0\n",
    b"tone 3 0 0 0 0 0 0 0 0\n",
    b"tone 4 0 0 0 0 0 0 0 0\n",
    b"wave 0 00000000000000000000000000000000\n",
    b"wave 1 0f0f0f0f0f0f0f0f0f0f0f0f0f0f0f0f\n",
    b"position 2 600\n",
    b"affine 2 00000000 00000000\n",
    b"affine 3 00000000 ffffffff\n",
    b"serial 3 0 0 0 0 0 0\n",
    b"known 3 3 3 3\n",
    b"mem wram 000000 0100000000000000000000000000000000000000000000000000000000000000\n",
    b"mem wram 000020 0000000000000000000000000000000000000000000000000000000000000001\n",
    b"mem backup 007fe0 ffffffffffffffffffffffffffffffffffffffffffffffffffffffffffffffff\n",
    b"was 88\n",
    b"applied 0\n",
    b"counts 0 1 0\n",
    b"drawn 0 000000000000000000000000000000000000000000000000000000000000000000000000000000000000000000000000000000000000000000000000000000000000000000000000000000000000000000000000000000000000000000000000000000000000000000000000000000000000000000000000000000000000000000000000000000000000000000000000000000000000000000000000000000000000000000000000000000000000000000000000000000000000000000000000000000000000000000000000000000000000000000000000000000000000000000000000000000000000000000000000000000000000000000000000000000000000000000000000000000000000000000000000000000000000000000000000000000000000000000000000000000000000000000000000000000000000000000000000000000000000000000000000000000000000000000000000000000000000000000000000000000000000000000000000000000000000000000000000000000000000000000000000000000000000000000000000000000000000000000000000000000000000000000000000000000000000000000000000000000000000000000000000000000000000000000000000000000000000000000000000\n",
    b"drawn 1 7fff7fff7fff7fff7fff7fff7fff7fff7fff7fff7fff7fff7fff7fff7fff7fff7fff7fff7fff7fff7fff7fff7fff7fff7fff7fff7fff7fff7fff7fff7fff7fff7fff7fff7fff7fff7fff7fff7fff7fff7fff7fff7fff7fff7fff7fff7fff7fff7fff7fff7fff7fff7fff7fff7fff7fff7fff7fff7fff7fff7fff7fff7fff7fff7fff7fff7fff7fff7fff7fff7fff7fff7fff7fff7fff7fff7fff7fff7fff7fff7fff7fff7fff7fff7fff7fff7fff7fff7fff7fff7fff7fff7fff7fff7fff7fff7fff7fff7fff7fff7fff7fff7fff7fff7fff7fff7fff7fff7fff7fff7fff7fff7fff7fff7fff7fff7fff7fff7fff7fff7fff7fff7fff7fff7fff7fff7fff7fff7fff7fff7fff7fff7fff7fff7fff7fff7fff7fff7fff7fff7fff7fff7fff7fff7fff7fff7fff7fff7fff7fff7fff7fff7fff7fff7fff7fff7fff7fff7fff7fff7fff7fff7fff7fff7fff7fff7fff7fff7fff7fff7fff7fff7fff7fff7fff7fff7fff7fff7fff7fff7fff7fff7fff7fff7fff7fff7fff7fff7fff7fff7fff7fff7fff7fff7fff7fff7fff7fff7fff7fff7fff7fff7fff7fff7fff7fff7fff7fff7fff7fff7fff7fff7fff7fff7fff7fff7fff7fff7fff7fff7fff7fff7fff7fff7fff7fff7fff7fff7fff7fff7fff7fff7fff7fff7fff7fff7fff7fff7fff7fff\n",
    b"signal 0 0000000000000058 0000000000000000\n",
    b"end\n",
];

/// A line of the file by its place.
pub(crate) fn line(place: usize) -> &'static [u8] {
    match LINES.get(place) {
        Some(line) => *line,
        None => b"",
    }
}

/// The two jobs that the files are of.
#[derive(Clone, Copy)]
pub(crate) enum Job {
    One,
    Two,
}

/// Both.
pub(crate) const JOBS: [Job; 2] = [Job::One, Job::Two];

/// Two consoles, of which the second one's cartridge has the larger flash.
pub(crate) const TWO: Setup = Setup {
    consoles: 2,
    backups: [Backup::Sram, Backup::Flash128, Backup::Sram, Backup::Sram],
    digest: [0x11; 32],
    until: 1000,
};

/// Where the lines of the second console begin.
const SECOND: usize = 73;

/// How many lines the file of two consoles has.
const COUNT_OF_TWO: usize = 148;

/// A line of the second console, whose lines are counted as those of the only one are; a line of the flash stands
/// before `was`.
fn second_line(place: usize) -> &'static [u8] {
    match place {
        3 => b"console 1\n",
        4 => b"clock 512\n",
        67 =>
            b"mem backup 01ffe0 00000000000000000000000000000000000000000000000000000000000000fe\n",
        WAS => b"flash 0 0 0 1\n",
        _ => {
            if place > WAS {
                line(place - 1)
            } else {
                line(place)
            }
        }
    }
}

/// A line of the file of two consoles.
fn line_of_two(place: usize) -> &'static [u8] {
    match place {
        145 => b"signal 0 0000000000000058 0000000000000000\n",
        146 => b"signal 1 00001e0000000005 0000000000001234\n",
        147 => b"end\n",
        _ => {
            if place < SECOND {
                line(place)
            } else {
                second_line(place - SECOND + 2)
            }
        }
    }
}

/// How many lines a file has.
pub(crate) fn count(job: Job) -> usize
    ensures some { 1 ≤ result }
    ensures few { result ≤ 148 }
{
    match job {
        Job::One => COUNT,
        Job::Two => COUNT_OF_TWO,
    }
}

/// A line of a file by its place.
pub(crate) fn line_of(job: Job, place: usize) -> &'static [u8] {
    match job {
        Job::One => line(place),
        Job::Two => line_of_two(place),
    }
}
