//! Laws over the definitions. Each is the contract of a function that takes no value.

ghost use Rattle.gba_link.specs.AgainLaw.{LogsRunAgain};
ghost use Rattle.gba_link.specs.AskedLaw.{KeepsWhatIsAsked};
ghost use Rattle.gba_link.specs.CountedLaw.{CountsItsFiles};
ghost use Rattle.gba_link.specs.DigestsLaw.{ComparesDigests};
ghost use Rattle.gba_link.specs.FilesLaw.{CommandsHaveFiles};
ghost use Rattle.gba_link.specs.GeneratedLaw.{GeneratedRunsAgain};
ghost use Rattle.gba_link.specs.InputsLaw.{SparesItsInputs};
ghost use Rattle.gba_link.specs.Law.{RefusesWrongWords, TwoIsWrongWords};

use gba_console::laws::counts_what_it_keeps;
use gba_run_files::laws::{
    frozen_runs_have_own_files, resumed_runs_have_own_files, runs_have_own_files,
};
use gba_store::{Sink, Store};
use gba_thaw::laws::thaws_soundly;

/// Words are refused just where they say no command, and then nothing is read. Want of memory may come before it.
pub fn refuses_wrong_words<S: Store>()
    ensures { RefusesWrongWords S.gives }
{}

/// The answer is 2 only where the words say no command.
pub fn two_is_wrong_words<S: Store, O: Sink>()
    ensures { TwoIsWrongWords O.Tells S.gives }
{}

/// The log of a run is a job. Run with the same images it writes the same bytes, and the same log and summary, whatever
/// the first job and its key files have become.
pub fn logs_run_again()
    ensures { LogsRunAgain }
{}

/// No file of a run is one that it read: neither JOB nor an input that the job names.
pub fn spares_its_inputs()
    ensures { SparesItsInputs }
{}

/// A run writes a file for each output that its job asks for, with the bytes that its console has made by the end of
/// the job's cycles, and beside these its log alone: none is lost and none is doubled.
pub fn keeps_what_is_asked()
    ensures { KeepsWhatIsAsked }
{}

/// A file of frames that a job asks for has 76,800 bytes for each whole frame that the summary counts of its console, a
/// file of samples 4 for each pair, and a file of words a line for each transfer.
pub fn counts_its_files()
    ensures { CountsItsFiles }
{
    counts_what_it_keeps();
}

/// A run ends with its summary where each digest that the job states of an output is the SHA-256 of the bytes that it
/// writes; else it is refused for the first output of which it isn't, with the stated digest and that of the bytes.
pub fn compares_digests()
    ensures { ComparesDigests }
{}

/// What `gen` makes can be run under every OUT: `run` of its job writes the same bytes as `gen` itself does behind the
/// files of the job, and the same summary.
pub fn generated_runs_again()
    ensures { GeneratedRunsAgain }
{}

/// The files of what a command comes to have different names, which begin with OUT, and none is standard output; and
/// the pieces of a file, one after another, are its bytes.
pub fn commands_have_files()
    ensures { CommandsHaveFiles }
{
    runs_have_own_files();
    frozen_runs_have_own_files();
    resumed_runs_have_own_files();
    thaws_soundly();
}
