//! The words of the commands.

ghost use Rattle.std.specs.Prelude.{◌≡◌, ◌≤◌, IfSome, length, map, option_map, string_bytes};
ghost use Rattle.std.specs.Bool.{OnTrue};
ghost use Rattle.gba_joblog.specs.Names.{is_name as is_name_said};
ghost use Rattle.gba_command.specs.Views.{command_value, file_words_value, freeze_words_value, generate_words_value, resume_words_value, run_words_value, trace_words_value};
ghost use Rattle.gba_command.specs.Words.{AreFileWords, AreFreezeWords, AreGenerateWords, AreResumeWords, AreRunWords, AreTraceWords, IsCommand, IsOut, command_of as command_said, command_of_five, command_of_four, command_of_three, file_words as file_words_said, freeze_words as freeze_words_said, generate_words as generate_words_said, is_out as is_out_said, resume_words as resume_words_said, run_words as run_words_said, trace_words as trace_words_said};

use gba_joblog::is_name;
use gba_text::number_in;

/// The longest OUT: the names of the written files are longer, and are names too.
const LONGEST_OUT: usize = 180;

/// The greatest NUMBER.
const LAST_NUMBER: u64 = 4_294_967_295;

/// The most CYCLES.
const MOST_CYCLES: u64 = 2_147_483_648;

/// The greatest FIRST.
const LAST_STEP: u64 = 1_099_511_627_775;

/// The most steps of a trace.
const MOST_STEPS: u64 = 1_000_000;

/// The greatest CLOCK.
const LAST_CLOCK: u64 = 274_877_906_944;

/// The words JOB and OUT.
#[derive(Clone, Copy, Debug, PartialEq, Eq)]
pub struct RunWords<'a> {
    pub job: &'a str,
    pub out: &'a str,
}

/// The names of the file that is read and of the file that is written, which differ.
#[derive(Clone, Copy, Debug, PartialEq, Eq)]
pub struct FileWords<'a> {
    pub from: &'a str,
    pub to: &'a str,
}

/// The words NUMBER, CYCLES and OUT.
#[derive(Clone, Copy, Debug, PartialEq, Eq)]
pub struct GenerateWords<'a> {
    pub number: u32,
    /// In cycles of 16,777,216 Hz, from 1 to 2,147,483,648.
    pub cycles: u64,
    pub out: &'a str,
}

/// The words JOB and OUT beside FIRST and COUNT.
#[derive(Clone, Copy, Debug, PartialEq, Eq)]
pub struct TraceWords<'a> {
    pub run: RunWords<'a>,
    /// The number of the first step, counted from 0, below 2^40.
    pub first: u64,
    /// How many steps, from 1 to 1,000,000.
    pub count: u64,
}

/// The words JOB and OUT beside CLOCK.
#[derive(Clone, Copy, Debug, PartialEq, Eq)]
pub struct FreezeWords<'a> {
    pub run: RunWords<'a>,
    /// In cycles of 16,777,216 Hz, from 1 to 274,877,906,944.
    pub clock: u64,
}

/// The words JOB and OUT beside FROZEN.
#[derive(Clone, Copy, Debug, PartialEq, Eq)]
pub struct ResumeWords<'a> {
    pub run: RunWords<'a>,
    pub frozen: &'a str,
}

/// A command of the program. Names are those of the job language, and that of what is written has at most 180 bytes.
/// This project's profile.
#[derive(Clone, Copy, Debug, PartialEq, Eq)]
pub enum Command<'a> {
    /// `run JOB OUT`: a job is run.
    RunJob(RunWords<'a>),
    /// `asm SRC OUT`: a source is assembled.
    Assemble(FileWords<'a>),
    /// `dis IMAGE OUT`: an image is listed as ARM code from address 0.
    ListArm(FileWords<'a>),
    /// `tdis IMAGE OUT`: an image is listed as Thumb code from address 0.
    ListThumb(FileWords<'a>),
    /// `gen NUMBER CYCLES OUT`: a run of four consoles is made of a number.
    Generate(GenerateWords<'a>),
    /// `trace JOB FIRST COUNT OUT`: steps of a job are listed.
    Trace(TraceWords<'a>),
    /// `freeze JOB CLOCK OUT`: a job is run to a clock, and the state of its consoles there is written.
    Freeze(FreezeWords<'a>),
    /// `resume JOB FROZEN OUT`: a job is run on from where it was frozen.
    Resume(ResumeWords<'a>),
}

fn is_out(name: &str) -> bool
    ensures value { result ≡ is_out_said name.now }
    ensures sound { OnTrue result (IsOut name.now) }
{
    is_name(name.as_bytes()) && name.len() <= LONGEST_OUT
}

#[tactic(auto, unfolding(gba_joblog::specs::Names::is_name))]
fn is_input(name: &str) -> bool
    ensures value { result ≡ is_name_said name.now }
    ensures short { OnTrue result (length name.now ≤ 200) }
{
    is_name(name.as_bytes())
}

fn run_words<'a>(job: &'a str, out: &'a str) -> Option<RunWords<'a>>
    ensures words { option_map run_words_value result ≡ run_words_said job.now out.now }
    ensures sound { IfSome result (λ words. AreRunWords (run_words_value words)) }
{
    if is_input(job) && is_out(out) {
        Some(RunWords { job, out })
    } else {
        None
    }
}

fn file_words<'a>(from: &'a str, to: &'a str) -> Option<FileWords<'a>>
    ensures words { option_map file_words_value result ≡ file_words_said from.now to.now }
    ensures sound { IfSome result (λ words. AreFileWords (file_words_value words)) }
{
    if is_input(from) && is_out(to) && from != to {
        Some(FileWords { from, to })
    } else {
        None
    }
}

fn generate_words<'a>(number: &str, cycles: &str, out: &'a str) -> Option<GenerateWords<'a>>
    ensures words { option_map generate_words_value result ≡ generate_words_said number.now cycles.now out.now }
    ensures sound { IfSome result (λ words. AreGenerateWords (generate_words_value words)) }
{
    if !is_out(out) {
        return None;
    }
    let number = number_in(number.as_bytes(), 0, LAST_NUMBER)?;
    let cycles = number_in(cycles.as_bytes(), 1, MOST_CYCLES)?;
    Some(GenerateWords {
        number: number as u32,
        cycles,
        out,
    })
}

fn trace_words<'a>(job: &'a str, first: &str, count: &str, out: &'a str) -> Option<TraceWords<'a>>
    ensures words { option_map trace_words_value result ≡ trace_words_said job.now first.now count.now out.now }
    ensures sound { IfSome result (λ words. AreTraceWords (trace_words_value words)) }
{
    let first = number_in(first.as_bytes(), 0, LAST_STEP)?;
    let count = number_in(count.as_bytes(), 1, MOST_STEPS)?;
    let run = run_words(job, out)?;
    Some(TraceWords { run, first, count })
}

fn freeze_words<'a>(job: &'a str, clock: &str, out: &'a str) -> Option<FreezeWords<'a>>
    ensures words { option_map freeze_words_value result ≡ freeze_words_said job.now clock.now out.now }
    ensures sound { IfSome result (λ words. AreFreezeWords (freeze_words_value words)) }
{
    let clock = number_in(clock.as_bytes(), 1, LAST_CLOCK)?;
    let run = run_words(job, out)?;
    Some(FreezeWords { run, clock })
}

fn resume_words<'a>(job: &'a str, frozen: &'a str, out: &'a str) -> Option<ResumeWords<'a>>
    ensures words { option_map resume_words_value result ≡ resume_words_said job.now frozen.now out.now }
    ensures sound { IfSome result (λ words. AreResumeWords (resume_words_value words)) }
{
    if !is_input(frozen) {
        return None;
    }
    let run = run_words(job, out)?;
    Some(ResumeWords { run, frozen })
}

fn command_of_words<'a>(name: &str, from: &'a str, to: &'a str) -> Option<Command<'a>>
    ensures command { option_map command_value result ≡ command_of_three name.now from.now to.now }
    ensures sound { IfSome result (λ command. IsCommand (command_value command)) }
{
    match name {
        "run" => run_words(from, to).map(Command::RunJob),
        "asm" => file_words(from, to).map(Command::Assemble),
        "dis" => file_words(from, to).map(Command::ListArm),
        "tdis" => file_words(from, to).map(Command::ListThumb),
        _ => None,
    }
}

fn command_of_four_words<'a>(
    name: &str,
    one: &'a str,
    two: &'a str,
    out: &'a str,
) -> Option<Command<'a>>
    ensures command { option_map command_value result ≡ command_of_four name.now one.now two.now out.now }
    ensures sound { IfSome result (λ command. IsCommand (command_value command)) }
{
    match name {
        "gen" => generate_words(one, two, out).map(Command::Generate),
        "freeze" => freeze_words(one, two, out).map(Command::Freeze),
        "resume" => resume_words(one, two, out).map(Command::Resume),
        _ => None,
    }
}

fn command_of_steps<'a>(
    name: &str,
    job: &'a str,
    first: &str,
    count: &str,
    out: &'a str,
) -> Option<Command<'a>>
    ensures command { option_map command_value result ≡ command_of_five name.now job.now first.now count.now out.now }
    ensures sound { IfSome result (λ command. IsCommand (command_value command)) }
{
    match name {
        "trace" => trace_words(job, first, count, out).map(Command::Trace),
        _ => None,
    }
}

/// The command that the words after the program's name say, if they say one.
pub fn command_of(words: &[String]) -> Option<Command<'_>>
    ensures command { option_map command_value result ≡ command_said (map string_bytes words.now) }
    ensures sound { IfSome result (λ command. IsCommand (command_value command)) }
{
    match words {
        [name, from, to] => command_of_words(name.as_str(), from.as_str(), to.as_str()),
        [name, one, two, out] => {
            command_of_four_words(name.as_str(), one.as_str(), two.as_str(), out.as_str())
        }
        [name, job, first, count, out] => command_of_steps(
            name.as_str(),
            job.as_str(),
            first.as_str(),
            count.as_str(),
            out.as_str(),
        ),
        _ => None,
    }
}
