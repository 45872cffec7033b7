//! What the lines before have said.

ghost use Rattle.std.specs.Prelude.{◌≡◌, ◌+◌, ◌<◌, ◌^◌, OnOk, IfOk, vec_len};
ghost use Rattle.gba_text.specs.Answers.{Agrees};
ghost use Rattle.gba_joblog.specs.Draft.{nothing_said};
ghost use Rattle.gba_joblog.specs.Language.{job_at_end as job_at_end_of};
ghost use Rattle.gba_joblog.specs.Statements.{closed, named_file as named_file_of, next_player as next_player_of, plus_statement};
ghost use Rattle.gba_joblog.specs.Views.{draft_value, file_value, job_value, statement_value};

use crate::cable::{Link, USUAL_DELAY, delays_of, players_for};
use crate::console::DraftConsole;
use crate::job::{FileLine, Job, JobConsole};
use crate::kinds::{JobError, JobKind};
use crate::statement::Line;
use std::alloc::{AllocError, Global};
use std::mem;

/// A version of the job language.
#[derive(Clone, Copy, Debug, PartialEq, Eq)]
pub(crate) enum JobVersion {
    One,
    Two,
}

/// Where in a job the next line stands.
#[derive(Clone, Copy, Debug)]
pub(crate) enum Place {
    /// Before the first line.
    Start,
    /// Before the first console.
    Head,
    /// Among the lines of a console.
    Inside,
    /// After the line `end`.
    Ended,
}

/// A job as far as it is said.
#[derive(Drop)]
pub(crate) struct DraftJob {
    /// That of the first line, and `One` before it.
    pub(crate) version: JobVersion,
    pub(crate) place: Place,
    pub(crate) cycles: Option<u64>,
    /// The delay of all pairs that have no link.
    pub(crate) delay: Option<u64>,
    /// The delays of single pairs, in the order of their lines.
    pub(crate) links: Vec<Link>,
    /// The consoles that are whole.
    pub(crate) consoles: Vec<JobConsole>,
    /// The console whose lines stand here.
    pub(crate) last: DraftConsole,
}

fn named_file(
    alloc: Global,
    name: &str,
    digest: Option<[u8; 32]>,
    line: u64,
) -> Result<FileLine, AllocError>
    ensures { IfOk result (λ file. file_value file ≡ named_file_of name.now digest line) }
{
    Ok(FileLine {
        name: String::from_str(alloc, name)?,
        digest,
        line,
    })
}

impl DraftJob {
    /// Before the first line.
    pub(crate) fn new(alloc: Global) -> DraftJob
        ensures { draft_value result ≡ nothing_said }
    {
        DraftJob {
            version: JobVersion::One,
            place: Place::Start,
            cycles: None,
            delay: None,
            links: Vec::new(alloc),
            consoles: Vec::new(alloc),
            last: DraftConsole::silent(alloc),
        }
    }

    /// The number of the next console.
    pub(crate) fn next_player(&self) -> u64
        ensures { result ≡ next_player_of self.now.place (vec_len self.now.consoles) }
    {
        let whole = self.consoles.len() as u64;
        match self.place {
            Place::Inside => whole + 1,
            Place::Start | Place::Head | Place::Ended => whole,
        }
    }

    /// Says that the console whose lines stand here is whole, if there is one, and where the next line stands.
    fn close(&mut self, alloc: Global, place: Place) -> Result<(), AllocError>
        ensures { OnOk result (draft_value self.new ≡ closed place (draft_value self.old)) }
    {
        let last = mem::replace(&mut self.last, DraftConsole::silent(alloc));
        if let (Place::Inside, Some(whole)) = (self.place, last.whole()) {
            self.consoles.push(whole)?;
        }
        self.place = place;
        Ok(())
    }

    /// Says what a line says.
    #[tactic(auto, unfolding(crate::specs::Statements::plus_statement))]
    pub(crate) fn add(
        &mut self,
        alloc: Global,
        line: Line<'_>,
        number: u64,
    ) -> Result<(), AllocError>
        ensures { OnOk result
            (draft_value self.new ≡ plus_statement number (statement_value line.entry) (draft_value self.old)) }
    {
        match line {
            Line::Version(version) => {
                self.version = version;
                self.place = Place::Head;
                Ok(())
            }
            Line::Cycles(cycles) => {
                self.cycles = Some(cycles);
                Ok(())
            }
            Line::Delay(delay) => {
                self.delay = Some(delay);
                Ok(())
            }
            Line::Link(link) => {
                self.links.push(link)?;
                Ok(())
            }
            Line::Console(_) => self.close(alloc, Place::Inside),
            Line::File(kind, name, digest) => {
                let file = named_file(alloc, name, digest, number)?;
                self.last.put_file(kind, file);
                Ok(())
            }
            Line::Key(change) => {
                self.last.changes.push(change)?;
                Ok(())
            }
            Line::Backup(backup) => {
                self.last.backup = Some(backup);
                Ok(())
            }
            Line::Off(off) => {
                self.last.off = off;
                Ok(())
            }
            Line::Out(out, digest) => {
                self.last.ask_for(out, digest);
                Ok(())
            }
            Line::End => self.close(alloc, Place::Ended),
        }
    }

    /// The job, once all lines are read, of which there are so many.
    #[tactic(auto, unfolding(crate::specs::Language::job_at_end))]
    pub(crate) fn finish(self, lines: u64) -> Result<Job, JobError>
        requires { lines + 1 < 2 ^ 64 }
        ensures { Agrees job_value result (job_at_end_of lines (draft_value self)) }
    {
        let DraftJob {
            version: _,
            place,
            cycles,
            delay,
            links,
            consoles,
            last: _,
        } = self;
        let (Place::Ended, Some(cycles)) = (place, cycles) else {
            return Err(JobError {
                line: lines + 1,
                kind: JobKind::Missing,
            });
        };
        let delays = delays_of(
            delay.unwrap_or(USUAL_DELAY),
            &links,
            players_for(consoles.len()),
        );
        Ok(Job {
            cycles,
            delays,
            consoles,
        })
    }
}
