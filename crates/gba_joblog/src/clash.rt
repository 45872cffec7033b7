//! Output files that would be the job or one of its inputs.

ghost use Rattle.std.specs.Prelude.{◌≡◌, ◌<◌, ◌^◌, decimal, map, option_map};
ghost use Rattle.std.specs.Str.{bytes_eq};
ghost use Rattle.gba_joblog.specs.Clash.{after_text, any_line_of as any_line_of_of, asks_as as asks_as_of, clash_with, console_clash as console_clash_of, console_writes as console_writes_of, ends_as as ends_as_of, inputs_clash as inputs_clash_of, is_output as is_output_of, is_written as is_written_of, least as least_of, line_of as line_of_of, log_file, tail_after as tail_after_of, writes as writes_of};
ghost use Rattle.gba_joblog.specs.Views.{console_value, file_value, job_value};

use crate::job::{FileLine, Job, JobConsole};
use crate::outputs::{KINDS, OutKind};
use itoa::Buffer;

/// What follows `OUT.K.` in a name.
#[tactic(auto, unfolding(crate::specs::Clash::tail_after))]
fn tail_after<'a>(name: &'a [u8], out: &[u8], player: &[u8]) -> Option<&'a [u8]>
    ensures { option_map (λ tail. tail.now) result ≡ tail_after_of out.now player.now name.now }
{
    name.strip_prefix(out)?
        .strip_prefix(b".".as_slice())?
        .strip_prefix(player)?
        .strip_prefix(b".".as_slice())
}

/// Whether a console is asked for an output that has this name.
fn asks_as(console: &JobConsole, tail: &[u8], kind: OutKind) -> bool
    ensures { result ≡ asks_as_of (console_value console.now) tail.now kind }
{
    console.asks_for(kind) && tail == kind.name().as_bytes()
}

/// Whether a console is asked for the output of this name.
fn ends_as(console: &JobConsole, tail: &[u8]) -> bool
    ensures { result ≡ ends_as_of (console_value console.now) tail.now }
{
    for kind in KINDS {
        if asks_as(console, tail, kind) {
            return true;
        }
    }
    false
}

/// Whether console `player` writes a file of this name.
fn console_writes(out: &[u8], player: u64, console: &JobConsole, name: &[u8]) -> bool
    ensures { result ≡ console_writes_of out.now player (console_value console.now) name.now }
{
    let mut buffer = Buffer::new();
    match tail_after(name, out, buffer.format(player).as_bytes()) {
        Some(tail) => ends_as(console, tail),
        None => false,
    }
}

/// Whether one of the consoles writes a file of this name.
fn writes(out: &[u8], consoles: &[JobConsole], name: &[u8]) -> bool
    ensures { result ≡ writes_of out.now 0 (map console_value consoles.now) name.now }
{
    for (player, console) in consoles.iter().enumerate() {
        if console_writes(out, player as u64, console, name) {
            return true;
        }
    }
    false
}

/// What follows OUT in a name.
fn after_out<'a>(name: &'a [u8], out: &[u8]) -> Option<&'a [u8]>
    ensures { option_map (λ tail. tail.now) result ≡ after_text out.now name.now }
{
    name.strip_prefix(out)
}

/// Whether this is the name of the log.
fn is_log(out: &[u8], name: &[u8]) -> bool
    ensures { result ≡ bytes_eq name.now (log_file out.now) }
{
    match after_out(name, out) {
        Some(tail) => tail == b".log".as_slice(),
        None => false,
    }
}

/// Whether a run of the consoles writes a file of this name.
#[tactic(auto, unfolding(crate::specs::Clash::is_output))]
fn is_output(out: &[u8], consoles: &[JobConsole], name: &[u8]) -> bool
    ensures { result ≡ is_output_of out.now (map console_value consoles.now) name.now }
{
    is_log(out, name) || writes(out, consoles, name)
}

/// Whether this is the name of the one file more that is written, or of one that a run of the consoles writes.
fn is_written(out: &[u8], consoles: &[JobConsole], more: Option<&str>, name: &[u8]) -> bool
    ensures { result
        ≡ is_written_of (option_map (λ one. one.now) more.entry) out.now (map console_value consoles.now) name.now }
{
    match more {
        Some(more) => name == more.as_bytes() || is_output(out, consoles, name),
        None => is_output(out, consoles, name),
    }
}

/// The lesser of two lines, where both are there.
fn least(a: Option<u64>, b: Option<u64>) -> Option<u64>
    ensures { result ≡ least_of a b }
{
    match (a, b) {
        (Some(m), Some(n)) => { if m <= n { Some(m) } else { Some(n) } }
        (Some(m), None) => Some(m),
        (None, line) => line,
    }
}

/// The line of an input that an output would be.
fn line_of(out: &[u8], consoles: &[JobConsole], more: Option<&str>, file: &FileLine) -> Option<u64>
    ensures { result
        ≡ line_of_of (is_written_of (option_map (λ one. one.now) more.entry) out.now (map console_value consoles.now))
        (file_value file.now) }
{
    if is_written(out, consoles, more, file.name.as_bytes()) {
        Some(file.line)
    } else {
        None
    }
}

/// The line of an input that may be there, and that an output would be.
fn any_line_of(
    out: &[u8],
    consoles: &[JobConsole],
    more: Option<&str>,
    file: &Option<FileLine>,
) -> Option<u64>
    ensures { result
        ≡ any_line_of_of (is_written_of (option_map (λ one. one.now) more.entry) out.now
        (map console_value consoles.now)) (option_map file_value file.now) }
{
    match file {
        Some(file) => line_of(out, consoles, more, file),
        None => None,
    }
}

/// The least line of a console's inputs that an output would be.
#[tactic(auto, unfolding(crate::specs::Clash::console_clash))]
fn console_clash(
    out: &[u8],
    consoles: &[JobConsole],
    more: Option<&str>,
    console: &JobConsole,
) -> Option<u64>
    ensures { result
        ≡ console_clash_of (is_written_of (option_map (λ one. one.now) more.entry) out.now
        (map console_value consoles.now)) (console_value console.now) }
{
    let bios = line_of(out, consoles, more, &console.bios);
    let cart = any_line_of(out, consoles, more, &console.cart);
    let save = any_line_of(out, consoles, more, &console.save);
    let keys = any_line_of(out, consoles, more, &console.keys);
    least(bios, least(cart, least(save, keys)))
}

/// The least line of an input that an output would be.
fn inputs_clash(out: &[u8], consoles: &[JobConsole], more: Option<&str>) -> Option<u64>
    ensures { result
        ≡ inputs_clash_of (is_written_of (option_map (λ one. one.now) more.entry) out.now
        (map console_value consoles.now)) (map console_value consoles.now) }
{
    let mut found = None;
    for console in consoles {
        found = least(found, console_clash(out, consoles, more, console));
    }
    found
}

impl Job {
    /// Where an output file or the log of a run with this OUT, or the one file more that a command writes, would be the
    /// file of the job, line 0, or one of its inputs: then the least line of such an input.
    #[tactic(auto, unfolding(crate::specs::Clash::clash_with))]
    pub fn clash(&self, job_name: &str, out: &str, more: Option<&str>) -> Option<u64>
        ensures { result
            ≡ clash_with (job_value self.now) job_name.now out.now (option_map (λ one. one.now) more.entry) }
    {
        let consoles = self.consoles.as_slice();
        if is_written(out.as_bytes(), consoles, more, job_name.as_bytes()) {
            return Some(0);
        }
        inputs_clash(out.as_bytes(), consoles, more)
    }
}
