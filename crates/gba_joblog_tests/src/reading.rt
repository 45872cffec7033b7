//! Jobs that are read.

use crate::helpers::{FIRST, HEAD, NOTHING, Named, OF_NOTHING, is_file, is_named, job_of, joined};
use gba_image::Backup;
use gba_joblog::{
    FileLine, Job, JobConsole, OutKind, OutLine, PAIRS, Pair, PerKind, backup_word, digest_of,
    digits_of, players_for,
};
use link_node::Delays;
use std::alloc::{AllocError, Global};
use std::process::Abort;
use std::test::Fail;

/// What is wanted of a console: its files, and the kinds of output that it is asked for with no digest, in the order of
/// the language's table.
#[derive(Drop)]
struct Wanted {
    bios: Named,
    cart: Option<Named>,
    save: Option<Named>,
    keys: Option<Named>,
    asked: [bool; 5],
}

/// Whether an output is asked for, with no digest, or isn't where it is not to be.
fn is_plain(out: Option<OutLine>, asked: bool) -> bool {
    match out {
        Some(out) => asked && out.digest.is_none(),
        None => !asked,
    }
}

/// Whether just these outputs are asked for, with no digest.
fn is_asked(outs: &PerKind<Option<OutLine>>, asked: [bool; 5]) -> bool {
    let [frames, samples, words, state, save] = asked;
    is_plain(outs.frames, frames)
        && is_plain(outs.samples, samples)
        && is_plain(outs.words, words)
        && is_plain(outs.state, state)
        && is_plain(outs.save, save)
}

/// Whether a console has these files and no others, and is asked for these outputs.
fn is_wanted(console: &JobConsole, want: &Wanted) -> bool {
    is_named(&console.bios, want.bios)
        && is_file(&console.cart, want.cart)
        && is_file(&console.save, want.save)
        && is_file(&console.keys, want.keys)
        && is_asked(&console.outs, want.asked)
}

/// Whether a console has no key changes and is never off.
fn is_still(console: &JobConsole) -> bool {
    console.changes.is_empty() && console.off == 0
}

/// The only console of a job.
fn only_console(job: &Job) -> Option<&JobConsole> {
    match job.consoles.as_slice() {
        [console] => Some(console),
        _ => None,
    }
}

/// Whether a job of one console says this: its cycles, its image with the line, and whether the state is asked for.
fn says(job: &Job, cycles: u64, bios: Named, state: bool) -> bool {
    let want = Wanted {
        bios,
        cart: None,
        save: None,
        keys: None,
        asked: [false, false, false, state, false],
    };
    match only_console(job) {
        Some(console) => {
            job.cycles == cycles
                && job.delays == Delays::all(512)
                && is_wanted(console, &want)
                && is_still(console)
        }
        None => false,
    }
}

/// Texts, each with what its job says, or with the line 0 where it is refused.
static JOBS: [(&[u8], u64, &str, u64, bool); 9] = [
    (FIRST, 1, "b", 4, true),
    (
        b"gbalink 1\ncycles 1\nconsole 0\nbios b\nout state\nend",
        1,
        "b",
        4,
        true,
    ),
    (
        b"gbalink 1\r\ncycles 1\r\nconsole 0\r\nbios b\r\nout state\r\nend\r\n",
        1,
        "b",
        4,
        true,
    ),
    (
        b"\tgbalink\t1 \n cycles \t 2147483648\nconsole\t0\n\tbios  b.-_/9Z\t\nout\tstate \nend \t",
        2147483648,
        "b.-_/9Z",
        4,
        true,
    ),
    (
        b"gbalink 1\ncycles 00000000000000000012\nconsole 000\nout state\nbios b\nend\n",
        12,
        "b",
        5,
        true,
    ),
    (
        b"gbalink 1\ncycles 5\nconsole 0\nbios b\nend\n",
        5,
        "b",
        4,
        false,
    ),
    (
        b"\n# \xff\x00\x7f\r \n\ngbalink 1\n#\n \t\ncycles 7\n#cycles 8\nconsole 0\nbios b\n#\x80\nend\n# after\n\n \n",
        7,
        "b",
        10,
        false,
    ),
    (
        b"gbalink 1\ncycles 7\nconsole 0\nbios --\nend\n#",
        7,
        "--",
        4,
        false,
    ),
    (
        b"gbalink 1\ncycles 7\nconsole 0\nbios #b\nend\n",
        7,
        "",
        0,
        false,
    ),
];

#[test]
fn jobs_are_read(rt: HostRuntime) {
    for &(text, cycles, bios, line, state) in &JOBS {
        let right = match job_of(rt.alloc(), text) {
            Some(job) => says(&job, cycles, (bios, line), state),
            None => line == 0,
        };
        assert!(rt; right, "of {text:?}");
    }
}

static OF_ONE_CONSOLE: Wanted = Wanted {
    bios: ("b", 7),
    cart: Some(("c.gba", 6)),
    save: Some(("s", 5)),
    keys: None,
    asked: [false, true, false, true, true],
};

#[test]
fn cartridges_and_saves_are_read(rt: HostRuntime) -> Result<(), Fail> {
    let text =
        b"gbalink 1\ncycles 1\nconsole 0\nout save\nsave s\ncart c.gba\nbios b\nout state\nout samples\nend\n";
    let job = job_of(rt.alloc(), text).ok_or("no job")?;
    let console = only_console(&job).ok_or("one console")?;
    assert!(rt; is_wanted(console, &OF_ONE_CONSOLE));
    Ok(())
}

// The delays of jobs: without a line, the least, the greatest, and before `cycles`. They are those between players 0
// and 1, the others of one console's cable stay 512.
static DELAYS: [(&[u8], u64); 5] = [
    (b"gbalink 1\ncycles 1\nconsole 0\nbios b\nend\n", 512),
    (b"gbalink 1\ncycles 1\ndelay 1\nconsole 0\nbios b\nend\n", 1),
    (
        b"gbalink 1\ndelay 1024\ncycles 1\nconsole 0\nbios b\nend\n",
        1024,
    ),
    (
        b"gbalink 1\ndelay 00000000000000000700\ncycles 1\nconsole 0\nbios b\nend\n",
        700,
    ),
    (
        b"gbalink 1\ncycles 1\ndelay 512\nconsole 0\nbios b\nend\n",
        512,
    ),
];

/// Whether the text is a job with these delays.
fn has_delays(alloc: Global, text: &[u8], delays: &Delays) -> bool {
    match job_of(alloc, text) {
        Some(job) => job.delays == *delays,
        None => false,
    }
}

#[test]
fn delays_are_read(rt: HostRuntime) {
    for &(text, delay) in &DELAYS {
        let delays = both_ways(delay, delay);
        assert!(rt; has_delays(rt.alloc(), text, &delays), "of {text:?}");
    }
}

// The cable of two players, of which the third and the fourth are missing.
fn both_ways(there: u64, back: u64) -> Delays {
    Delays {
        rows: [
            [512, there, 512, 512],
            [back, 512, 512, 512],
            [512, 512, 512, 512],
            [512, 512, 512, 512],
        ],
    }
}

// The lines between `gbalink 2` with `cycles 1` and those of so many consoles, and the delays from each player to each
// other one.
static CABLES: [(&[u8], usize, Delays); 6] = [
    (
        b"",
        4,
        Delays {
            rows: [
                [512, 512, 512, 512],
                [512, 512, 512, 512],
                [512, 512, 512, 512],
                [512, 512, 512, 512],
            ],
        },
    ),
    (
        b"link 0 1 1\nlink 1 0 1024\n",
        1,
        Delays {
            rows: [
                [512, 1, 512, 512],
                [1024, 512, 512, 512],
                [512, 512, 512, 512],
                [512, 512, 512, 512],
            ],
        },
    ),
    // the links of players that are missing
    (
        b"delay 7\nlink 0 2 3\nlink 2 0 4\nlink 3 1 5\nlink 2 3 6\n",
        2,
        Delays {
            rows: [
                [512, 7, 512, 512],
                [7, 512, 512, 512],
                [512, 512, 512, 512],
                [512, 512, 512, 512],
            ],
        },
    ),
    (
        b"link 1 2 3\ndelay 9\nlink 2 1 4\n",
        3,
        Delays {
            rows: [
                [512, 9, 9, 512],
                [9, 512, 3, 512],
                [9, 4, 512, 512],
                [512, 512, 512, 512],
            ],
        },
    ),
    (
        b"link 0 3 00000000000000000011\nlink 03 00 12\n",
        4,
        Delays {
            rows: [
                [512, 512, 512, 11],
                [512, 512, 512, 512],
                [512, 512, 512, 512],
                [12, 512, 512, 512],
            ],
        },
    ),
    (
        b"link 0 1 1\nlink 0 2 2\nlink 0 3 3\nlink 1 0 4\nlink 1 2 5\nlink 1 3 6\nlink 2 0 7\nlink 2 1 8\nlink 2 3 9\nlink 3 0 10\nlink 3 1 11\nlink 3 2 12\ndelay 13\n",
        4,
        Delays {
            rows: [
                [512, 1, 2, 3],
                [4, 512, 5, 6],
                [7, 8, 512, 9],
                [10, 11, 12, 512],
            ],
        },
    ),
];

static FOUR_CONSOLES: [&[u8]; 4] = [
    b"console 0\nbios b\n",
    b"console 1\nbios b\n",
    b"console 2\nbios b\n",
    b"console 3\nbios b\n",
];

/// A job of so many consoles after these lines.
fn cable_job(alloc: Global, lines: &[u8], consoles: usize) -> Result<Vec<u8>, AllocError> {
    let mut text = joined(alloc, &[b"gbalink 2\ncycles 1\n", lines])?;
    for (player, console) in FOUR_CONSOLES.iter().enumerate() {
        if player < consoles {
            text.extend_from_slice(console)?;
        }
    }
    text.extend_from_slice(b"end\n")?;
    Ok(text)
}

#[test]
fn links_are_read(rt: HostRuntime) -> Result<(), Fail> {
    for (lines, consoles, delays) in &CABLES {
        let text = cable_job(rt.alloc(), lines, *consoles)?;
        assert!(rt; has_delays(rt.alloc(), &text, delays), "of {lines:?}");
    }
    Ok(())
}

/// Whether the consoles of a job are off from these cycles on.
fn are_off(job: &Job, want: &[u64]) -> bool {
    job.consoles.len() == want.len()
        && job
            .consoles
            .iter()
            .zip(want)
            .all(|(console, off)| console.off == *off)
}

// The longest run of version 2, and consoles that are off: for one cycle, for as long as can be, and not at all.
#[test]
fn consoles_that_are_off_are_read(rt: HostRuntime) -> Result<(), Fail> {
    let text: &[u8] =
        b" gbalink 2\ncycles 274877906944\nconsole 0\noff 1\nbios b\nconsole 1\nbios b\noff 274877906943\nconsole 2\nbios b\nend\n";
    let job = job_of(rt.alloc(), text).ok_or("no job")?;
    assert_eq!(rt; job.cycles, 274_877_906_944);
    assert!(rt; are_off(&job, &[1, 274_877_906_943, 0]));
    Ok(())
}

/// What the cartridges of a job's consoles keep their saves in.
fn keep_in(job: &Job, want: &[Backup]) -> bool {
    job.consoles.len() == want.len()
        && job
            .consoles
            .iter()
            .zip(want)
            .all(|(console, backup)| console.backup == *backup)
}

// Each kind of backup, anywhere among the lines of its console, and SRAM where no line says one.
#[test]
fn backups_are_read(rt: HostRuntime) -> Result<(), Fail> {
    let text: &[u8] =
        b"gbalink 2\ncycles 1\nconsole 0\nbackup flash64\nbios b\nconsole 1\nbios b\nconsole 2\nbios b\nkey 3 001\nbackup flash128\nconsole 3\nbackup sram\nbios b\nend\n";
    let job = job_of(rt.alloc(), text).ok_or("no job")?;
    let want = [
        Backup::Flash64,
        Backup::Sram,
        Backup::Flash128,
        Backup::Sram,
    ];
    assert!(rt; keep_in(&job, &want));
    let old = b"gbalink 1\ncycles 1\nconsole 0\nbios b\nsave s\nend\n";
    let job = job_of(rt.alloc(), old).ok_or("no job")?;
    assert!(rt; keep_in(&job, &[Backup::Sram]));
    for (backup, word) in [
        (Backup::Sram, "sram"),
        (Backup::Flash64, "flash64"),
        (Backup::Flash128, "flash128"),
    ] {
        assert_eq!(rt; backup_word(backup), word);
    }
    Ok(())
}

/// How many pairs of players are joined on a cable of so many.
fn joined_pairs(players: usize) -> usize {
    PAIRS.iter().filter(|pair| pair.is_joined(players)).count()
}

/// Whether a player of a cable of four is joined to itself.
fn is_joined_to_itself(player: usize) -> bool {
    let pair = Pair {
        sender: player,
        receiver: player,
    };
    pair.is_joined(4)
}

// The pairs of players, and how many players a cable has.
#[test]
fn pairs_are_told(rt: HostRuntime) {
    assert_eq!(rt; (players_for(1), players_for(2), players_for(4)), (2, 2, 4));
    assert_eq!(rt; joined_pairs(3), 6);
    assert!(rt; !is_joined_to_itself(1));
}

static OF_FOUR_CONSOLES: [Wanted; 4] = [
    Wanted {
        bios: ("b", 4),
        cart: Some(("c", 5)),
        save: None,
        keys: None,
        asked: [false; 5],
    },
    Wanted {
        bios: ("b", 8),
        cart: None,
        save: None,
        keys: Some(("k", 7)),
        asked: [false; 5],
    },
    Wanted {
        bios: ("d", 10),
        cart: None,
        save: None,
        keys: None,
        asked: [false, false, true, false, false],
    },
    Wanted {
        bios: ("b", 14),
        cart: None,
        save: Some(("s", 15)),
        keys: None,
        asked: [true, false, false, false, false],
    },
];

/// Whether a console is asked for words and for no frames.
fn asks_for_words(console: &JobConsole) -> bool {
    console.asks_for(OutKind::Words) && !console.asks_for(OutKind::Frames)
}

/// Whether a console is asked for frames, with no digest, and for no words.
fn gives_frames(console: &JobConsole) -> bool {
    is_plain(console.output(OutKind::Frames), true) && console.output(OutKind::Words).is_none()
}

/// Whether the third of four consoles is asked for words, and the fourth for frames.
fn ask_for_words_and_frames(consoles: &[JobConsole]) -> bool {
    match consoles {
        [_, _, third, fourth] => asks_for_words(third) && gives_frames(fourth),
        _ => false,
    }
}

/// Whether each console has its files and no others, and is asked for its outputs.
fn are_wanted(consoles: &[JobConsole], want: &[Wanted]) -> bool {
    if consoles.len() != want.len() {
        return false;
    }
    for (console, want) in consoles.iter().zip(want) {
        if !is_wanted(console, want) {
            return false;
        }
    }
    true
}

/// The same files, and no output.
fn files_of(want: &Wanted) -> Wanted {
    Wanted {
        bios: want.bios,
        cart: want.cart,
        save: want.save,
        keys: want.keys,
        asked: [false; 5],
    }
}

/// Whether each console has its files still, and is asked for nothing.
fn are_asked_for_nothing(consoles: &[JobConsole], want: &[Wanted]) -> bool {
    if consoles.len() != want.len() {
        return false;
    }
    for (console, want) in consoles.iter().zip(want) {
        if !is_wanted(console, &files_of(want)) {
            return false;
        }
    }
    true
}

#[test]
fn four_consoles_are_read(rt: HostRuntime) -> Result<(), Fail> {
    let text: &[u8] =
        b"gbalink 1\ncycles 9\nconsole 0\nbios b\ncart c\nconsole 1\nkeys k\nbios b\nconsole 02\nbios d\nout words\nconsole 3\nout frames\nbios b\nsave s\nend\n";
    let job = job_of(rt.alloc(), text).ok_or("no job")?;
    assert!(rt; are_wanted(&job.consoles, &OF_FOUR_CONSOLES));
    assert!(rt; ask_for_words_and_frames(&job.consoles));
    let job = job.without_outputs();
    assert!(rt; job.cycles == 9);
    assert!(rt; are_asked_for_nothing(&job.consoles, &OF_FOUR_CONSOLES));
    Ok(())
}

fn has_digest(file: &Option<FileLine>, digest: [u8; 32]) -> bool {
    match file {
        Some(file) => file.digest == Some(digest),
        None => false,
    }
}

/// Whether each file of a console has the digest of the empty file.
fn are_files_of_nothing(console: &JobConsole) -> bool {
    console.bios.digest == Some(NOTHING)
        && has_digest(&console.cart, NOTHING)
        && has_digest(&console.save, NOTHING)
        && has_digest(&console.keys, NOTHING)
}

/// Whether the frames and the words are to have the digest of the empty file, the samples none, and there
/// are no others.
fn are_outputs_of_nothing(outs: &PerKind<Option<OutLine>>) -> bool {
    let stated = Some(OutLine {
        digest: Some(NOTHING),
    });
    let plain = Some(OutLine { digest: None });
    outs.frames == stated
        && outs.samples == plain
        && outs.words == stated
        && outs.state.is_none()
        && outs.save.is_none()
}

/// What stands before digits in a job whose lines all state a digest, but for its samples.
static BEFORE_DIGITS: [&[u8]; 6] = [
    b"bios b sha256 ",
    b"\ncart c\tsha256  ",
    b" \nsave s sha256 ",
    b"\r\nkeys k sha256 ",
    b"\nout frames sha256 ",
    b"\nout samples\nout words sha256 ",
];

/// A job whose lines all state these digits, but for its samples.
fn with_digits(alloc: Global, digits: &[u8]) -> Result<Vec<u8>, AllocError> {
    let mut text = Vec::from_slice(alloc, HEAD)?;
    for &before in &BEFORE_DIGITS {
        text.extend_from_slice(before)?;
        text.extend_from_slice(digits)?;
    }
    text.extend_from_slice(b"\nend")?;
    Ok(text)
}

/// The digits in lower case, in upper case and in both.
static DIGITS: [&[u8]; 3] = [
    OF_NOTHING,
    b"E3B0C44298FC1C149AFBF4C8996FB92427AE41E4649B934CA495991B7852B855",
    b"e3B0c44298fC1c149AfBf4C8996fb92427ae41E4649b934Ca495991b7852B855",
];

#[test]
fn digests_are_read(rt: HostRuntime) -> Result<(), Fail> {
    for &digits in &DIGITS {
        let text = with_digits(rt.alloc(), digits)?;
        let job = job_of(rt.alloc(), &text).ok_or("no job")?;
        let console = only_console(&job).ok_or("one console")?;
        assert!(rt; are_files_of_nothing(console), "of {digits:?}");
        assert!(rt; are_outputs_of_nothing(&console.outs), "of {digits:?}");
    }
    Ok(())
}

fn has_digits(digest: &[u8; 32], digits: &[u8]) -> bool {
    digits_of(digest).as_slice() == digits
}

#[test]
fn digests_are_told(rt: HostRuntime) {
    assert!(rt; digest_of(b"") == NOTHING);
    assert!(rt; has_digits(&NOTHING, OF_NOTHING));
    assert_eq!(rt; OutKind::Samples.name(), "samples");
}
