//! The lines of a log, added to a buffer that has room for them.

ghost use Rattle.std.specs.Prelude.{◌≡◌, ◌+◌, ◌<◌, ◌≤◌, ◌++◌, [], ◌∷◌, codes, decimal, length, map, option_map, vec_capacity, vec_len};
ghost use Rattle.std.specs.List.{All};
ghost use Rattle.gba_joblog.specs.Soundness.{IsChange, IsConsole, IsJob};
ghost use Rattle.gba_joblog.specs.Views.{console_value, file_value, job_value};
ghost use Rattle.gba_joblog.specs.Log.{after_words, any_file_text, backup_text, change_text, changes_text, console_text, consoles_text, digest_words, file_text, files_text, keys_word, line_of, link_text, links_text, log_text, off_text, out_text, outs_text};
ghost use Rattle.gba_log.specs.Buffers.{Grew, HasRoom};

use gba_image::Backup;
use gba_joblog::{
    FileLine, Job, JobConsole, KINDS, KeyChange, OutKind, PAIRS, Pair, digits_of, players_for,
};
use itoa::Buffer;
use link_node::Delays;

/// The digits of pressed keys.
const DIGITS: &[u8; 16] = b"0123456789abcdef";

/// Adds bytes where there is room for them.
fn add(into: &mut Vec<u8>, bytes: &[u8])
    requires { HasRoom into.old bytes.now }
    ensures { Grew into.old into.new bytes.now }
{
    if into.extend_from_slice(bytes).is_err() {
        unreachable!()
    }
}

/// Adds a line of a keyword and a number.
fn add_number_line(into: &mut Vec<u8>, keyword: &[u8], number: u64)
    requires { HasRoom into.old (line_of keyword.now (decimal number ∷ [])) }
    ensures { Grew into.old into.new (line_of keyword.now (decimal number ∷ [])) }
{
    let mut buffer = Buffer::new();
    add(into, keyword);
    add(into, b" ");
    add(into, buffer.format(number).as_bytes());
    add(into, b"\n");
}

/// Adds a space and a number.
fn add_number(into: &mut Vec<u8>, number: u64)
    requires { HasRoom into.old (codes " " ++ decimal number) }
    ensures { Grew into.old into.new (codes " " ++ decimal number) }
{
    let mut buffer = Buffer::new();
    add(into, b" ");
    add(into, buffer.format(number).as_bytes());
}

/// Adds the line of a pair's delay, where the cable joins the pair.
fn add_link(into: &mut Vec<u8>, players: usize, delays: &Delays, pair: Pair)
    requires { HasRoom into.old (link_text players delays.now pair) }
    ensures { Grew into.old into.new (link_text players delays.now pair) }
{
    if pair.is_joined(players) {
        add(into, b"link");
        add_number(into, pair.sender as u64);
        add_number(into, pair.receiver as u64);
        add_number(into, delays.hop(pair.sender, pair.receiver));
        add(into, b"\n");
    }
}

/// Adds the lines of the delays, by sender and then by receiver.
#[tactic(auto, unfolding(gba_joblog::specs::Log::links_text))]
fn add_links(into: &mut Vec<u8>, players: usize, delays: &Delays)
    requires { HasRoom into.old (links_text players delays.now) }
    ensures { Grew into.old into.new (links_text players delays.now) }
{
    for pair in PAIRS {
        add_link(into, players, delays, pair);
    }
}

/// Adds the line of what a cartridge keeps its saves in, where it isn't SRAM.
fn add_backup(into: &mut Vec<u8>, backup: Backup)
    requires { HasRoom into.old (backup_text backup) }
    ensures { Grew into.old into.new (backup_text backup) }
{
    match backup {
        Backup::Sram => {}
        Backup::Flash64 => add(into, b"backup flash64\n"),
        Backup::Flash128 => add(into, b"backup flash128\n"),
    }
}

/// Adds the line of the clock from which on a console is on, where it isn't on from the start.
fn add_off(into: &mut Vec<u8>, off: u64)
    requires { HasRoom into.old (off_text off) }
    ensures { Grew into.old into.new (off_text off) }
{
    if off != 0 {
        add_number_line(into, b"off", off);
    }
}

/// Adds what follows a name: its digest, if one is stated, and the end of the line.
fn add_digest(into: &mut Vec<u8>, digest: &Option<[u8; 32]>)
    requires { HasRoom into.old (after_words (digest_words digest.now)) }
    ensures { Grew into.old into.new (after_words (digest_words digest.now)) }
{
    if let Some(digest) = digest {
        add(into, b" sha256 ");
        add(into, &digits_of(digest));
    }
    add(into, b"\n");
}

/// Adds the line of an input.
fn add_file(into: &mut Vec<u8>, keyword: &[u8], file: &FileLine)
    requires { HasRoom into.old (file_text keyword.now (file_value file.now)) }
    ensures { Grew into.old into.new (file_text keyword.now (file_value file.now)) }
{
    add(into, keyword);
    add(into, b" ");
    add(into, file.name.as_bytes());
    add_digest(into, &file.digest);
}

/// Adds the line of an input that may be there.
fn add_any_file(into: &mut Vec<u8>, keyword: &[u8], file: &Option<FileLine>)
    requires { HasRoom into.old (any_file_text keyword.now (option_map file_value file.now)) }
    ensures { Grew into.old into.new (any_file_text keyword.now (option_map file_value file.now)) }
{
    if let Some(file) = file {
        add_file(into, keyword, file);
    }
}

/// The three digits of pressed keys.
fn keys_digits(keys: u16) -> [u8; 3]
    requires { keys < 1024 }
    ensures { result ≡ keys_word keys }
{
    let keys = usize::from(keys);
    [
        DIGITS[keys / 256],
        DIGITS[keys / 16 % 16],
        DIGITS[keys % 16],
    ]
}

/// Adds the line of a change of the keys.
fn add_change(into: &mut Vec<u8>, change: &KeyChange)
    requires keys { change.now.keys < 1024 }
    requires room { HasRoom into.old (change_text change.now) }
    ensures { Grew into.old into.new (change_text change.now) }
{
    let mut buffer = Buffer::new();
    add(into, b"key ");
    add(into, buffer.format(change.clock).as_bytes());
    add(into, b" ");
    add(into, &keys_digits(change.keys));
    add(into, b"\n");
}

/// Adds the lines of the changes of the keys.
fn add_changes(into: &mut Vec<u8>, changes: &[KeyChange])
    requires sound { All IsChange changes.now }
    requires room { HasRoom into.old (changes_text changes.now) }
    ensures { Grew into.old into.new (changes_text changes.now) }
{
    for change in changes {
        add_change(into, change);
    }
}

/// Adds the line of an output.
fn add_out(into: &mut Vec<u8>, console: &JobConsole, out: OutKind)
    requires { HasRoom into.old (out_text (console_value console.now) out) }
    ensures { Grew into.old into.new (out_text (console_value console.now) out) }
{
    if let Some(asked) = console.output(out) {
        add(into, b"out ");
        add(into, out.name().as_bytes());
        add_digest(into, &asked.digest);
    }
}

/// Adds the lines of the outputs, in the order of the language's table.
fn add_outs(into: &mut Vec<u8>, console: &JobConsole)
    requires { HasRoom into.old (outs_text (console_value console.now)) }
    ensures { Grew into.old into.new (outs_text (console_value console.now)) }
{
    for kind in KINDS {
        add_out(into, console, kind);
    }
}

/// Adds the lines of the files of a console.
fn add_files(into: &mut Vec<u8>, console: &JobConsole)
    requires { HasRoom into.old (files_text (console_value console.now)) }
    ensures { Grew into.old into.new (files_text (console_value console.now)) }
{
    add_file(into, b"bios", &console.bios);
    add_any_file(into, b"cart", &console.cart);
    add_any_file(into, b"save", &console.save);
}

/// Adds the lines of a console.
#[tactic(auto, unfolding(gba_joblog::specs::Log::console_text))]
fn add_console(into: &mut Vec<u8>, player: u64, console: &JobConsole)
    requires sound { IsConsole (console_value console.now) }
    requires room { HasRoom into.old (console_text player (console_value console.now)) }
    ensures { Grew into.old into.new (console_text player (console_value console.now)) }
{
    add_number_line(into, b"console", player);
    add_files(into, console);
    add_backup(into, console.backup);
    add_off(into, console.off);
    add_changes(into, console.changes.as_slice());
    add_outs(into, console);
}

/// Adds the lines of the consoles.
fn add_consoles(into: &mut Vec<u8>, consoles: &[JobConsole])
    requires sound { All IsConsole (map console_value consoles.now) }
    requires room { HasRoom into.old (consoles_text 0 (map console_value consoles.now)) }
    ensures { Grew into.old into.new (consoles_text 0 (map console_value consoles.now)) }
{
    for (player, console) in consoles.iter().enumerate() {
        add_console(into, player as u64, console);
    }
}

/// Adds the log of a job to a buffer that has room for its `printed_len` bytes. The job is one that was read, or one
/// that was read with its digests stated and the changes of its key files written in. It takes no memory.
#[tactic(auto, unfolding(gba_joblog::specs::Log::log_text))]
pub fn print(job: &Job, into: &mut Vec<u8>)
    requires sound { IsJob (job_value job.now) }
    requires room { vec_len into.old + length (log_text (job_value job.now)) ≤ vec_capacity into.old }
    ensures items { into.new.items ≡ into.old.items ++ log_text (job_value job.now) }
    ensures len { vec_len into.new ≡ vec_len into.old + length (log_text (job_value job.now)) }
    ensures room { vec_capacity into.old ≤ vec_capacity into.new }
{
    add(into, b"gbalink 2\n");
    add_number_line(into, b"cycles", job.cycles);
    add_links(into, players_for(job.consoles.len()), &job.delays);
    add_consoles(into, job.consoles.as_slice());
    add(into, b"end\n");
}
