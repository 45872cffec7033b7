//! What several tests use.

use gba_joblog::{FileLine, Job, JobError, JobKind, KeyChange, ParseRefused, parse_keys};
use std::alloc::{AllocError, Global};
use std::process::Abort;
use std::test::Fail;

/// The smallest job that asks for anything.
pub(crate) const FIRST: &[u8] = b"gbalink 1\ncycles 1\nconsole 0\nbios b\nout state\nend\n";

/// The first lines of a job, after which the lines of a console stand: the next is the fourth.
pub(crate) const HEAD: &[u8] = b"gbalink 1\ncycles 1\nconsole 0\n";

/// The digest of the empty file (FIPS 180-4, its example values).
pub(crate) const OF_NOTHING: &[u8] =
    b"e3b0c44298fc1c149afbf4c8996fb92427ae41e4649b934ca495991b7852b855";

/// The same digest as bytes.
pub(crate) static NOTHING: [u8; 32] = [
    0xe3, 0xb0, 0xc4, 0x42, 0x98, 0xfc, 0x1c, 0x14, 0x9a, 0xfb, 0xf4, 0xc8, 0x99, 0x6f, 0xb9, 0x24,
    0x27, 0xae, 0x41, 0xe4, 0x64, 0x9b, 0x93, 0x4c, 0xa4, 0x95, 0x99, 0x1b, 0x78, 0x52, 0xb8, 0x55,
];

/// The job that a text says.
pub(crate) fn job_of(alloc: Global, text: &[u8]) -> Option<Job> {
    match Job::parse(alloc, text) {
        Ok(job) => Some(job),
        Err(_) => None,
    }
}

/// The key changes that a file says.
pub(crate) fn changes_of(alloc: Global, text: &[u8]) -> Option<Vec<KeyChange>> {
    match parse_keys(alloc, text) {
        Ok(changes) => Some(changes),
        Err(_) => None,
    }
}

fn job_refusal(alloc: Global, text: &[u8]) -> Option<JobError> {
    match Job::parse(alloc, text) {
        Err(ParseRefused::Job(refusal)) => Some(refusal),
        _ => None,
    }
}

fn keys_refusal(alloc: Global, text: &[u8]) -> Option<JobError> {
    match parse_keys(alloc, text) {
        Err(ParseRefused::Job(refusal)) => Some(refusal),
        _ => None,
    }
}

fn is_refusal(refusal: Option<JobError>, line: u64, kind: JobKind) -> bool {
    match refusal {
        Some(refusal) => refusal.line == line && refusal.kind == kind,
        None => false,
    }
}

/// Whether a job is refused at this line for this cause.
pub(crate) fn refuses(alloc: Global, text: &[u8], line: u64, kind: JobKind) -> bool {
    is_refusal(job_refusal(alloc, text), line, kind)
}

/// Whether a key file is refused at this line for this cause.
pub(crate) fn refuses_keys(alloc: Global, text: &[u8], line: u64, kind: JobKind) -> bool {
    is_refusal(keys_refusal(alloc, text), line, kind)
}

/// Asserts of each text, after a front that is common to them, that the job is refused at its line for its cause.
pub(crate) fn assert_refused(
    rt: &impl Abort,
    alloc: Global,
    front: &[u8],
    rows: &[(&[u8], u64, JobKind)],
) -> Result<(), AllocError> {
    for &(text, line, kind) in rows {
        let whole = joined(alloc, &[front, text])?;
        assert!(rt; refuses(alloc, &whole, line, kind), "of {text:?}");
    }
    Ok(())
}

/// The name and the line of a file.
pub(crate) type Named = (&'static str, u64);

/// Whether a file has this name and this line, and no digest.
pub(crate) fn is_named(file: &FileLine, (name, line): Named) -> bool {
    file.name.as_str() == name && file.line == line && file.digest.is_none()
}

/// Whether a file has this name and this line, and no digest, or isn't there where none is wanted.
pub(crate) fn is_file(file: &Option<FileLine>, want: Option<Named>) -> bool {
    match (file, want) {
        (Some(file), Some(want)) => is_named(file, want),
        (None, None) => true,
        _ => false,
    }
}

/// A text, then so many equal bytes, then another text.
pub(crate) struct Padded {
    pub(crate) front: &'static [u8],
    pub(crate) byte: u8,
    pub(crate) count: usize,
    pub(crate) back: &'static [u8],
    /// At which line it is refused, and for which cause.
    pub(crate) refused: Option<(u64, JobKind)>,
}

impl Padded {
    fn text(&self, alloc: Global) -> Result<Vec<u8>, AllocError> {
        let mut text = vec![in alloc; self.byte; self.count]?;
        let mut whole = Vec::from_slice(alloc, self.front)?;
        whole.append(&mut text)?;
        whole.extend_from_slice(self.back)?;
        Ok(whole)
    }

    fn is_right_job(&self, alloc: Global) -> Result<bool, AllocError> {
        let text = self.text(alloc)?;
        Ok(match self.refused {
            Some((line, kind)) => refuses(alloc, &text, line, kind),
            None => job_of(alloc, &text).is_some(),
        })
    }

    fn is_right_key_file(&self, alloc: Global) -> Result<bool, AllocError> {
        let text = self.text(alloc)?;
        Ok(match self.refused {
            Some((line, kind)) => refuses_keys(alloc, &text, line, kind),
            None => changes_of(alloc, &text).is_some(),
        })
    }
}

/// Asserts of each text that as a job it is read, or refused as it says.
pub(crate) fn assert_jobs(rt: &impl Abort, alloc: Global, rows: &[Padded]) -> Result<(), Fail> {
    for (at, row) in rows.iter().enumerate() {
        assert!(rt; row.is_right_job(alloc)?, "at {at}");
    }
    Ok(())
}

/// Asserts of each text that as a key file it is read, or refused as it says.
pub(crate) fn assert_key_files(
    rt: &impl Abort,
    alloc: Global,
    rows: &[Padded],
) -> Result<(), Fail> {
    for (at, row) in rows.iter().enumerate() {
        assert!(rt; row.is_right_key_file(alloc)?, "at {at}");
    }
    Ok(())
}

/// So many equal lines before another text.
pub(crate) fn repeated(
    alloc: Global,
    front: &[u8],
    line: &[u8],
    count: usize,
    back: &[u8],
) -> Result<Vec<u8>, AllocError> {
    let mut whole = Vec::from_slice(alloc, front)?;
    for _ in 0..count {
        whole.extend_from_slice(line)?;
    }
    whole.extend_from_slice(back)?;
    Ok(whole)
}

/// These texts, one after another.
pub(crate) fn joined(alloc: Global, parts: &[&[u8]]) -> Result<Vec<u8>, AllocError> {
    let mut whole = Vec::new(alloc);
    for part in parts {
        whole.extend_from_slice(part)?;
    }
    Ok(whole)
}
