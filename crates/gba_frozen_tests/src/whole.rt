//! Whole frozen files of one console and of two: as they are, and with each line dropped, doubled, swapped, or spelled
//! otherwise.

use crate::files::{JOBS, Job, TWO, count, line_of};
use crate::keeping::{Bytes, Drawn, Kept, Sent};
use crate::reading::SETUP;
use gba_frozen::{MemoryPlace, ThawError, ThawKind};
use gba_frozen_read::{LONGEST_FILE, read_frozen};
use gba_numbers::MemoryName;
use std::alloc::Global;
use std::process::Abort;
use std::test::Fail;

/// What a file of a job comes to: how many lines it has, or its refusal.
fn read(job: Job, file: &[u8], kept: &mut Kept) -> Result<u64, ThawError> {
    match job {
        Job::One => read_frozen(&SETUP, file, kept),
        Job::Two => read_frozen(&TWO, file, kept),
    }
}

fn outcome(job: Job, file: &[u8]) -> Result<u64, ThawError> {
    read(job, file, &mut Kept::new())
}

fn refused(line: usize, kind: ThawKind) -> Result<u64, ThawError> {
    Err(ThawError {
        line: line as u64,
        kind,
    })
}

fn spelling(line: usize) -> Result<u64, ThawError> {
    refused(line, ThawKind::Spelling)
}

/// Adds the lines from a place on, up to another one.
fn add_lines(file: &mut Vec<u8>, job: Job, from: usize, until: usize) -> Result<(), Fail> {
    for place in from..until {
        file.extend_from_slice(line_of(job, place))?;
    }
    Ok(())
}

/// The file of a job with its lines up to `until` and from `from` on, and pieces of a line between them.
fn file_with(
    alloc: Global,
    job: Job,
    until: usize,
    pieces: &[&[u8]],
    from: usize,
) -> Result<Vec<u8>, Fail> {
    let mut file = Vec::new(alloc);
    add_lines(&mut file, job, 0, until)?;
    for piece in pieces {
        file.extend_from_slice(*piece)?;
    }
    add_lines(&mut file, job, from, count(job))?;
    Ok(file)
}

/// The file of a job.
fn whole_file(alloc: Global, job: Job) -> Result<Vec<u8>, Fail> {
    let mut file = Vec::new(alloc);
    add_lines(&mut file, job, 0, count(job))?;
    Ok(file)
}

/// A line without its line feed.
fn unended(job: Job, place: usize) -> &'static [u8] {
    match line_of(job, place).split_last() {
        Some((_, line)) => line,
        None => b"",
    }
}

/// Whether any number of lines of the kind may stand there.
fn is_free(line: &[u8]) -> bool {
    line.starts_with(b"mem ") || line.starts_with(b"drawn ") || line.starts_with(b"signal ")
}

fn is_signal(line: &[u8]) -> bool {
    line.starts_with(b"signal ")
}

fn accepted(lines: usize) -> Result<u64, ThawError> {
    Ok(lines as u64)
}

#[test]
fn files_are_read(rt: HostRuntime) -> Result<(), Fail> {
    for &job in &JOBS {
        let file = whole_file(rt.alloc(), job)?;
        assert_eq!(rt; outcome(job, file.as_slice()), accepted(count(job)));
    }
    Ok(())
}

/// What is kept of the lines of memories of the file of two consoles.
static MEMORY: [Option<Bytes>; 6] = [
    Some(Bytes {
        player: 0,
        place: MemoryPlace {
            name: MemoryName::Wram,
            offset: 0,
        },
        first: 1,
        last: 0,
    }),
    Some(Bytes {
        player: 0,
        place: MemoryPlace {
            name: MemoryName::Wram,
            offset: 0x20,
        },
        first: 0,
        last: 1,
    }),
    Some(Bytes {
        player: 0,
        place: MemoryPlace {
            name: MemoryName::Backup,
            offset: 0x7FE0,
        },
        first: 0xFF,
        last: 0xFF,
    }),
    Some(Bytes {
        player: 1,
        place: MemoryPlace {
            name: MemoryName::Wram,
            offset: 0,
        },
        first: 1,
        last: 0,
    }),
    Some(Bytes {
        player: 1,
        place: MemoryPlace {
            name: MemoryName::Wram,
            offset: 0x20,
        },
        first: 0,
        last: 1,
    }),
    Some(Bytes {
        player: 1,
        place: MemoryPlace {
            name: MemoryName::Backup,
            offset: 0x1_FFE0,
        },
        first: 0,
        last: 0xFE,
    }),
];

/// What is kept of its drawn lines.
static DRAWN: [Drawn; 4] = [
    Drawn {
        player: 0,
        line: 0,
        first: 0,
    },
    Drawn {
        player: 0,
        line: 1,
        first: 0x7FFF,
    },
    Drawn {
        player: 1,
        line: 0,
        first: 0,
    },
    Drawn {
        player: 1,
        line: 1,
        first: 0x7FFF,
    },
];

/// What is kept of its signals.
static SENT: [Sent; 2] = [
    Sent {
        sender: 0,
        clock: 0x58,
    },
    Sent {
        sender: 1,
        clock: 5,
    },
];

fn numbers_are_kept<R: Abort>(rt: &R, kept: &Kept) {
    assert_eq!(rt; kept.lines, 148);
    assert_eq!(rt; kept.clocks.as_slice(), [600, 512].as_slice());
    assert_eq!(rt; kept.queued.as_slice(), [1, 255, 1, 255].as_slice());
}

fn lines_are_kept<R: Abort>(rt: &R, kept: &Kept) {
    assert_eq!(rt; kept.memory.as_slice(), MEMORY.as_slice());
    assert_eq!(rt; kept.drawn.as_slice(), DRAWN.as_slice());
    assert_eq!(rt; kept.sent.as_slice(), SENT.as_slice());
}

#[test]
fn what_lines_say_is_kept(rt: HostRuntime) -> Result<(), Fail> {
    let file = whole_file(rt.alloc(), Job::Two)?;
    let mut kept = Kept::new();
    assert!(rt; read(Job::Two, file.as_slice(), &mut kept).is_ok());
    numbers_are_kept(&rt, &kept);
    lines_are_kept(&rt, &kept);
    Ok(())
}

/// A line of a memory, a drawn line and a signal may be missing; where any other line is, the next one is refused in
/// its stead, and behind the last one the end.
#[test]
fn a_line_is_missing(rt: HostRuntime) -> Result<(), Fail> {
    for &job in &JOBS {
        for place in 0..count(job) {
            let file = file_with(rt.alloc(), job, place, &[], place + 1)?;
            let wanted = if is_free(line_of(job, place)) {
                accepted(count(job) - 1)
            } else {
                spelling(place + 1)
            };
            assert_eq!(rt; outcome(job, file.as_slice()), wanted, "line {place}");
        }
    }
    Ok(())
}

/// A signal may stand there again; any other line is refused where it does, the last one too.
#[test]
fn a_line_is_doubled(rt: HostRuntime) -> Result<(), Fail> {
    for &job in &JOBS {
        for place in 0..count(job) {
            let file = file_with(rt.alloc(), job, place + 1, &[], place)?;
            let wanted = if is_signal(line_of(job, place)) {
                accepted(count(job) + 1)
            } else {
                spelling(place + 2)
            };
            assert_eq!(rt; outcome(job, file.as_slice()), wanted, "line {place}");
        }
    }
    Ok(())
}

/// The line that comes too early is refused. Behind a place where lines may be missing it may stand, and the other one
/// comes too late; but signals have no order.
#[test]
fn lines_are_swapped(rt: HostRuntime) -> Result<(), Fail> {
    for &job in &JOBS {
        for first in 0..count(job) - 1 {
            let (one, other) = (line_of(job, first), line_of(job, first + 1));
            let file = file_with(rt.alloc(), job, first, &[other, one], first + 2)?;
            let wanted = if is_signal(one) && is_signal(other) {
                accepted(count(job))
            } else if is_free(one) {
                spelling(first + 2)
            } else {
                spelling(first + 1)
            };
            assert_eq!(rt; outcome(job, file.as_slice()), wanted, "line {first}");
        }
    }
    Ok(())
}

/// What ends each line instead of its line feed, or stands before it.
static ENDS: [&[u8]; 5] = [b"", b"\r\n", b" \n", b"\r", b"\t\n"];

/// A line that isn't ended by a line feed alone is refused.
#[test]
fn lines_end_in_a_line_feed_alone(rt: HostRuntime) -> Result<(), Fail> {
    for &job in &JOBS {
        for place in 0..count(job) {
            for end in &ENDS {
                let file = file_with(
                    rt.alloc(),
                    job,
                    place,
                    &[unended(job, place), *end],
                    place + 1,
                )?;
                assert_eq!(rt;
                    outcome(job, file.as_slice()),
                    spelling(place + 1),
                    "line {place}"
                );
            }
        }
    }
    Ok(())
}

/// How many line feeds there are.
fn feeds(bytes: &[u8]) -> usize {
    bytes.iter().filter(|byte| **byte == b'\n').count()
}

/// A file that is cut anywhere is refused behind its last whole line.
#[test]
fn files_are_cut(rt: HostRuntime) -> Result<(), Fail> {
    for &job in &JOBS {
        let file = whole_file(rt.alloc(), job)?;
        for length in (0..file.len()).step_by(11) {
            let cut = &file[..length];
            assert_eq!(rt;
                outcome(job, cut),
                spelling(feeds(cut).saturating_add(1)),
                "length {length}"
            );
        }
    }
    Ok(())
}

/// A line in the stead of one of the file of one console, and why it is refused there.
struct Other {
    place: usize,
    line: &'static [u8],
    kind: ThawKind,
}

static OTHERS: [Other; 14] = [
    Other {
        place: 0,
        line: b"gbalink-frozen 2\n",
        kind: ThawKind::Spelling,
    },
    Other {
        place: 1,
        line: b"job 1111111111111111111111111111111111111111111111111111111111111112\n",
        kind: ThawKind::Job,
    },
    Other {
        place: 1,
        line: b"job 111111111111111111111111111111111111111111111111111111111111111A\n",
        kind: ThawKind::Spelling,
    },
    Other {
        place: 3,
        line: b"console 1\n",
        kind: ThawKind::Spelling,
    },
    Other {
        place: 4,
        line: b"clock 1512\n",
        kind: ThawKind::Number,
    },
    Other {
        place: 4,
        line: b"clock 0600\n",
        kind: ThawKind::Spelling,
    },
    Other {
        place: 4,
        line: b"clock\t600\n",
        kind: ThawKind::Spelling,
    },
    Other {
        place: 37,
        line: b"cpsr 000000D3\n",
        kind: ThawKind::Spelling,
    },
    Other {
        place: 37,
        line: b"cpsr 000000d4\n",
        kind: ThawKind::Number,
    },
    Other {
        place: 65,
        line: b"mem wram 000000 0000000000000000000000000000000000000000000000000000000000000000\n",
        kind: ThawKind::Spelling,
    },
    Other {
        place: 65,
        line: b"mem wram 040000 0100000000000000000000000000000000000000000000000000000000000000\n",
        kind: ThawKind::Number,
    },
    Other {
        place: 68,
        line: b"flash 0 0 0 0\n",
        kind: ThawKind::Spelling,
    },
    Other {
        place: 73,
        line: b"signal 1 0000000000000058 0000000000000000\n",
        kind: ThawKind::Number,
    },
    Other {
        place: 74,
        line: b"end 1\n",
        kind: ThawKind::Spelling,
    },
];

#[test]
fn other_lines_are_refused(rt: HostRuntime) -> Result<(), Fail> {
    for other in &OTHERS {
        let place = other.place;
        let file = file_with(rt.alloc(), Job::One, place, &[other.line], place + 1)?;
        let wanted = refused(place + 1, other.kind);
        assert_eq!(rt; outcome(Job::One, file.as_slice()), wanted, "line {place}");
    }
    Ok(())
}

/// 240 colours 0.
static COLOURS: [u8; 960] = [b'0'; 960];

/// Line 159 of a frame is never kept, and 158 is the last one that is.
#[test]
fn the_last_drawn_lines(rt: HostRuntime) -> Result<(), Fail> {
    for &(number, wanted) in &[
        (b"drawn 158 ".as_slice(), accepted(76)),
        (b"drawn 159 ".as_slice(), refused(74, ThawKind::Number)),
        (b"drawn 1 ".as_slice(), spelling(74)),
    ] {
        let file = file_with(
            rt.alloc(),
            Job::One,
            73,
            &[number, COLOURS.as_slice(), b"\n"],
            73,
        )?;
        assert_eq!(rt; outcome(Job::One, file.as_slice()), wanted);
    }
    Ok(())
}

/// What is no file at all is refused at its first line.
#[test]
fn other_files_are_refused(rt: HostRuntime) {
    for &file in &[b"".as_slice(), b"\n".as_slice(), b"\xff".as_slice()] {
        assert_eq!(rt; outcome(Job::One, file), spelling(1), "{file:?}");
    }
}

/// The file of the other job is refused where the first console's lines end.
#[test]
fn files_of_other_jobs_are_refused(rt: HostRuntime) -> Result<(), Fail> {
    for &(job, other) in &[(Job::One, Job::Two), (Job::Two, Job::One)] {
        let file = whole_file(rt.alloc(), job)?;
        let wanted = spelling(74);
        assert_eq!(rt;
            outcome(other, file.as_slice()),
            wanted,
            "{} lines",
            count(job)
        );
    }
    Ok(())
}

/// The longest file is read, and one byte more is refused as a whole.
#[test]
fn a_file_has_134217728_bytes(rt: HostRuntime) -> Result<(), Fail> {
    assert_eq!(rt; LONGEST_FILE, 134_217_728);
    let mut file = whole_file(rt.alloc(), Job::One)?;
    file.resize(134_217_728, b'\n')?;
    assert_eq!(rt; outcome(Job::One, file.as_slice()), spelling(76));
    file.push(b'\n')?;
    assert_eq!(rt; outcome(Job::One, file.as_slice()), spelling(0));
    Ok(())
}
