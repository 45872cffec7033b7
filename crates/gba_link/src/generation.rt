//! What `gen` makes: the files of a job, and its run.

ghost use Rattle.std.specs.Prelude.{◌≡◌, ◌<◌, IfOk, Ok};
ghost use Rattle.gba_command.specs.Views.{Agrees, generate_words_value, output_value};
ghost use Rattle.gba_command.specs.Words.{AreGenerateWords, IsOut};
ghost use Rattle.gba_inputs.specs.Views.{inputs_value};
ghost use Rattle.gba_joblog.specs.Soundness.{IsJob};
ghost use Rattle.gba_joblog.specs.Views.{job_value};
ghost use Rattle.gba_generator.specs.Job.{job as job_of};
ghost use Rattle.gba_generator.specs.Source.{bios as bios_said};
ghost use Rattle.gba_link.specs.GeneratedRun.{bare_inputs, bios_output, generated_run, job_output};
ghost use Rattle.gba_link.specs.Work.{work_value};

use crate::run::prepare_inputs;
use crate::work::Work;
use gba_command::{GenerateWords, OutputFile, Refusal};
use gba_generator::{bios_name, job_name, job_text, make_bios, make_job};
use gba_image::{Backup, Bios, ConsoleImages};
use gba_inputs::{ImageDigests, Inputs};
use gba_joblog::{Job, digest_of};
use gba_run_files::PreparedRun;
use gba_terms::NoMemory;
use std::alloc::{AllocError, Global};

/// The inputs of a console that has its BIOS alone.
fn inputs_of(alloc: Global, image: Bios) -> Inputs
    ensures { inputs_value result ≡ bare_inputs image }
{
    let digest = digest_of(image.bytes());
    Inputs {
        images: ConsoleImages {
            bios: image,
            cart: None,
            save: None,
            backup: Backup::Sram,
        },
        digests: ImageDigests {
            bios: digest,
            cart: None,
            save: None,
        },
        changes: Vec::new(alloc),
    }
}

/// A player's BIOS as an input, and as the file that is written.
fn bios_of(
    alloc: Global,
    words: &GenerateWords<'_>,
    player: u32,
) -> Result<(Inputs, OutputFile), NoMemory>
    requires out { IsOut words.now.out.now }
    requires player { player < 4 }
    ensures { IfOk result (λ made. (inputs_value made.0 ≡ bare_inputs (bios_said words.now.number player))
        × (output_value made.1 ≡ bios_output (generate_words_value words.now) player)) }
{
    let image = make_bios(alloc, words.number, player)?;
    let bytes = Vec::from_slice(alloc, image.bytes())?;
    let name = bios_name(alloc, words.out, u64::from(player))?;
    Ok((inputs_of(alloc, image), OutputFile { name, bytes }))
}

/// The file of the job.
fn job_file(alloc: Global, words: &GenerateWords<'_>) -> Result<OutputFile, AllocError>
    requires { IsOut words.now.out.now }
    ensures { IfOk result (λ file. output_value file ≡ job_output (generate_words_value words.now)) }
{
    let bytes = job_text(alloc, words.cycles, words.out)?;
    let name = job_name(alloc, words.out)?;
    Ok(OutputFile { name, bytes })
}

fn all_inputs(alloc: Global, inputs: [Inputs; 4]) -> Result<Vec<Inputs>, AllocError>
    ensures { IfOk result (λ all. all.items ≡ inputs) }
{
    let all = Vec::from_array(alloc, inputs)?;
    Ok(all)
}

/// The files that are made before the run.
fn first_files(alloc: Global, made: [OutputFile; 5]) -> Result<Vec<OutputFile>, AllocError>
    ensures { IfOk result (λ files. files.items ≡ made) }
{
    let files = Vec::from_array(alloc, made)?;
    Ok(files)
}

/// The job with its inputs and its files, and its run, which is ready.
fn make(alloc: Global, words: &GenerateWords<'_>) -> Result<PreparedRun, NoMemory>
    requires { AreGenerateWords (generate_words_value words.now) }
    ensures { IfOk result (λ run. run ≡ generated_run (generate_words_value words.now)) }
{
    let job = make_job(alloc, words.cycles, words.out)?;
    let (first, first_file) = bios_of(alloc, words, 0)?;
    let (second, second_file) = bios_of(alloc, words, 1)?;
    let (third, third_file) = bios_of(alloc, words, 2)?;
    let (fourth, fourth_file) = bios_of(alloc, words, 3)?;
    let job_file = job_file(alloc, words)?;
    let made = [first_file, second_file, third_file, fourth_file, job_file];
    let files = first_files(alloc, made)?;
    let inputs = all_inputs(alloc, [first, second, third, fourth])?;
    prepare_inputs(alloc, words.out, files, job, inputs)
}

/// Makes of a number the images and the job of four consoles, and the job's run, which is ready. It reads nothing.
pub(crate) fn generate(alloc: Global, words: &GenerateWords<'_>) -> Result<Work, Refusal>
    requires { AreGenerateWords (generate_words_value words.now) }
    ensures { Agrees work_value (Ok (generated_run (generate_words_value words.now))) result }
{
    match make(alloc, words) {
        Ok(run) => Ok(Work::Ready(run)),
        Err(NoMemory) => Err(Refusal::NoMemory),
    }
}
