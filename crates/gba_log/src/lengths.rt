//! How many bytes the lines of a log have.

ghost use Rattle.std.specs.Prelude.{◌≡◌, ◌*◌, ◌≤◌, ◌<◌, ◌^◌, [], ◌∷◌, IfSome, decimal, length, map, option_map};
ghost use Rattle.std.specs.List.{All};
ghost use Rattle.gba_joblog.specs.Digests.{IsDigest};
ghost use Rattle.gba_joblog.specs.Soundness.{IsConsole, IsFile, IsJob};
ghost use Rattle.gba_joblog.specs.Views.{console_value, file_value, job_value};
ghost use Rattle.gba_joblog.specs.Log.{after_words, any_file_text, backup_text, change_text, changes_text, console_text, consoles_text, digest_words, file_text, files_text, line_of, link_text, links_text, log_text, off_text, out_text, outs_text};

use gba_image::Backup;
use gba_joblog::{FileLine, Job, JobConsole, KINDS, KeyChange, OutKind, PAIRS, Pair, players_for};
use itoa::Buffer;
use link_node::Delays;

/// The bytes of `sha256` and 64 digits, with the spaces before them, and of the line's end.
const DIGEST_LEN: u64 = 73;

/// The bytes of the first line, `gbalink 2`.
const VERSION_LEN: u64 = 10;

/// The bytes of the last line, `end`.
const END_LEN: u64 = 4;

/// The bytes of a line of a keyword and a number.
fn number_len(keyword: &[u8], number: u64) -> u64
    requires { length keyword.now ≤ 8 }
    ensures value { result ≡ length (line_of keyword.now (decimal number ∷ [])) }
    ensures most { result ≤ 30 }
{
    let mut buffer = Buffer::new();
    keyword.len() as u64 + buffer.format(number).len() as u64 + 2
}

/// The digits of a number.
fn decimal_len(number: u64) -> u64
    ensures value { result ≡ length (decimal number) }
    ensures most { result ≤ 20 }
{
    let mut buffer = Buffer::new();
    buffer.format(number).len() as u64
}

/// The bytes of the line of a pair's delay.
fn link_len(players: usize, delays: &Delays, pair: Pair) -> u64
    ensures value { result ≡ length (link_text players delays.now pair) }
    ensures most { result ≤ 68 }
{
    if !pair.is_joined(players) {
        return 0;
    }
    let delay = delays.hop(pair.sender, pair.receiver);
    decimal_len(pair.sender as u64) + decimal_len(pair.receiver as u64) + decimal_len(delay) + 8
}

/// The bytes of the lines of the delays.
#[tactic(auto, unfolding(gba_joblog::specs::Log::links_text))]
fn links_len(players: usize, delays: &Delays) -> u64
    ensures value { result ≡ length (links_text players delays.now) }
    ensures most { result ≤ 816 }
{
    let mut total = 0;
    for pair in PAIRS {
        total += link_len(players, delays, pair);
    }
    total
}

/// The bytes of the line of what a cartridge keeps its saves in.
fn backup_len(backup: Backup) -> u64
    ensures value { result ≡ length (backup_text backup) }
    ensures most { result ≤ 16 }
{
    match backup {
        Backup::Sram => 0,
        Backup::Flash64 => 15,
        Backup::Flash128 => 16,
    }
}

/// The bytes of the line of the clock from which on a console is on.
fn off_len(off: u64) -> u64
    ensures value { result ≡ length (off_text off) }
    ensures most { result ≤ 30 }
{
    if off == 0 {
        return 0;
    }
    number_len(b"off", off)
}

/// The bytes that follow a name.
fn digest_len(digest: &Option<[u8; 32]>) -> u64
    requires { IfSome digest.now IsDigest }
    ensures value { result ≡ length (after_words (digest_words digest.now)) }
    ensures most { result ≤ 73 }
{
    match digest {
        Some(_) => DIGEST_LEN,
        None => 1,
    }
}

/// The bytes of the line of an input.
fn file_len(keyword: &[u8], file: &FileLine) -> u64
    requires keyword { length keyword.now ≤ 8 }
    requires sound { IsFile (file_value file.now) }
    ensures value { result ≡ length (file_text keyword.now (file_value file.now)) }
    ensures most { result ≤ 282 }
{
    let name = file.name.as_bytes();
    keyword.len() as u64 + name.len() as u64 + digest_len(&file.digest) + 1
}

/// The bytes of the line of an input that may be there.
fn any_file_len(keyword: &[u8], file: &Option<FileLine>) -> u64
    requires keyword { length keyword.now ≤ 8 }
    requires sound { IfSome (option_map file_value file.now) IsFile }
    ensures value { result ≡ length (any_file_text keyword.now (option_map file_value file.now)) }
    ensures most { result ≤ 282 }
{
    match file {
        Some(file) => file_len(keyword, file),
        None => 0,
    }
}

/// The bytes of the line of a change of the keys.
fn change_len(change: &KeyChange) -> u64
    ensures value { result ≡ length (change_text change.now) }
    ensures most { result ≤ 29 }
{
    let mut buffer = Buffer::new();
    buffer.format(change.clock).len() as u64 + 9
}

/// The bytes of the lines of the changes of the keys.
fn changes_len(changes: &[KeyChange]) -> u64
    requires { length changes.now ≤ 1000000 }
    ensures value { result ≡ length (changes_text changes.now) }
    ensures most { result ≤ 29000000 }
{
    let mut total = 0;
    for change in changes {
        total += change_len(change);
    }
    total
}

/// The bytes of the line of an output.
fn out_len(console: &JobConsole, out: OutKind) -> u64
    requires { IsConsole (console_value console.now) }
    ensures value { result ≡ length (out_text (console_value console.now) out) }
    ensures most { result ≤ 84 }
{
    match console.output(out) {
        Some(asked) => out.name().as_bytes().len() as u64 + digest_len(&asked.digest) + 4,
        None => 0,
    }
}

/// The bytes of the lines of the outputs.
fn outs_len(console: &JobConsole) -> u64
    requires { IsConsole (console_value console.now) }
    ensures value { result ≡ length (outs_text (console_value console.now)) }
    ensures most { result ≤ 420 }
{
    let mut total = 0;
    for kind in KINDS {
        total += out_len(console, kind);
    }
    total
}

/// The bytes of the lines of a console.
#[tactic(auto, unfolding(gba_joblog::specs::Log::console_text))]
fn console_len(player: u64, console: &JobConsole) -> u64
    requires { IsConsole (console_value console.now) }
    ensures value { result ≡ length (console_text player (console_value console.now)) }
    ensures most { result ≤ 29001342 }
{
    number_len(b"console", player)
        + file_len(b"bios", &console.bios)
        + any_file_len(b"cart", &console.cart)
        + any_file_len(b"save", &console.save)
        + backup_len(console.backup)
        + off_len(console.off)
        + changes_len(console.changes.as_slice())
        + outs_len(console)
}

/// The bytes of the lines of the consoles.
fn consoles_len(consoles: &[JobConsole]) -> u64
    requires sound { All IsConsole (map console_value consoles.now) }
    requires few { length consoles.now ≤ 4 }
    ensures value { result ≡ length (consoles_text 0 (map console_value consoles.now)) }
    ensures most { result ≤ 116005368 }
{
    let mut total = 0;
    for (player, console) in consoles.iter().enumerate() {
        total += console_len(player as u64, console);
    }
    total
}

/// How many bytes the log of a job has. The job is as `print` needs it.
#[tactic(auto, unfolding(gba_joblog::specs::Log::log_text))]
pub fn printed_len(job: &Job) -> u64
    requires { IsJob (job_value job.now) }
    ensures value { result ≡ length (log_text (job_value job.now)) }
    ensures most { result ≤ 116006228 }
{
    VERSION_LEN
        + number_len(b"cycles", job.cycles)
        + links_len(players_for(job.consoles.len()), &job.delays)
        + consoles_len(job.consoles.as_slice())
        + END_LEN
}
