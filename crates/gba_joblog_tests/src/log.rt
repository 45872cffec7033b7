//! Logs, against texts that were written by hand.

use crate::helpers::{FIRST, NOTHING};
use gba_joblog::{Job, OutKind};
use gba_log::{print, printed_len};
use std::alloc::{AllocError, Global};
use std::test::Fail;

// The log of a job, with as much room as it has bytes.
fn log_of(alloc: Global, text: &[u8]) -> Result<Vec<u8>, AllocError> {
    match Job::parse(alloc, text) {
        Ok(job) => {
            let mut log = Vec::with_capacity(alloc, printed_len(&job) as usize)?;
            print(&job, &mut log);
            Ok(log)
        }
        Err(_) => Ok(Vec::new(alloc)),
    }
}

static LOGS: [(&[u8], &[u8]); 10] = [
    (
        FIRST,
        b"gbalink 2\ncycles 1\nlink 0 1 512\nlink 1 0 512\nconsole 0\nbios b\nout state\nend\n",
    ),
    (
        b"# a job\r\n gbalink\t1\n\ndelay 0007\ncycles 02147483648\nconsole 0\nout save\nout frames\nkey 0 3FF\nsave s\nbios b\nkey 274877906943 0aB\ncart c\nout words\nend",
        b"gbalink 2\ncycles 2147483648\nlink 0 1 7\nlink 1 0 7\nconsole 0\nbios b\ncart c\nsave s\nkey 0 3ff\nkey 274877906943 0ab\nout frames\nout words\nout save\nend\n",
    ),
    (
        b"gbalink 1\ncycles 5\nconsole 0\nkeys k sha256 E3B0C44298FC1C149AFBF4C8996FB92427AE41E4649B934CA495991B7852B855\nbios b sha256 E3B0C44298FC1C149AFBF4C8996FB92427AE41E4649B934CA495991B7852B855\nout samples sha256 e3b0c44298fc1c149afbf4c8996fb92427ae41e4649b934ca495991b7852b855\nend\n",
        b"gbalink 2\ncycles 5\nlink 0 1 512\nlink 1 0 512\nconsole 0\nbios b sha256 e3b0c44298fc1c149afbf4c8996fb92427ae41e4649b934ca495991b7852b855\nout samples sha256 e3b0c44298fc1c149afbf4c8996fb92427ae41e4649b934ca495991b7852b855\nend\n",
    ),
    (
        b"gbalink 1\ncycles 9\nconsole 0\nbios b\nconsole 1\nbios b\nkey 5 001\nconsole 2\nbios b\nconsole 3\nsave s\nbios d\nend\n",
        b"gbalink 2\ncycles 9\nlink 0 1 512\nlink 0 2 512\nlink 0 3 512\nlink 1 0 512\nlink 1 2 512\nlink 1 3 512\nlink 2 0 512\nlink 2 1 512\nlink 2 3 512\nlink 3 0 512\nlink 3 1 512\nlink 3 2 512\nconsole 0\nbios b\nconsole 1\nbios b\nkey 5 001\nconsole 2\nbios b\nconsole 3\nbios d\nsave s\nend\n",
    ),
    // one console: the second player of its cable is kept, and no third one
    (
        b"gbalink 2\nlink 1 0 1024\nlink 3 2 5\ncycles 274877906944\nlink 0 1 01\nconsole 0\nkey 3 001\noff 274877906943\nbios b\nout save\nend\n",
        b"gbalink 2\ncycles 274877906944\nlink 0 1 1\nlink 1 0 1024\nconsole 0\nbios b\noff 274877906943\nkey 3 001\nout save\nend\n",
    ),
    // two consoles: a link of a third player has no effect
    (
        b"gbalink 2\ncycles 4\ndelay 9\nlink 1 2 3\nlink 0 1 4\nconsole 0\nsave s\noff 1\nbios b\nconsole 1\nbios d\nend\n",
        b"gbalink 2\ncycles 4\nlink 0 1 4\nlink 1 0 9\nconsole 0\nbios b\nsave s\noff 1\nconsole 1\nbios d\nend\n",
    ),
    // three consoles: by sender, then by receiver
    (
        b"gbalink 2\ncycles 4\nlink 2 1 6\nlink 2 0 5\nlink 1 2 4\nlink 1 0 3\nlink 0 2 2\nlink 0 1 1\nconsole 0\nbios b\nconsole 1\nbios b\nconsole 2\ncart c\nbios b\noff 16\nend\n",
        b"gbalink 2\ncycles 4\nlink 0 1 1\nlink 0 2 2\nlink 1 0 3\nlink 1 2 4\nlink 2 0 5\nlink 2 1 6\nconsole 0\nbios b\nconsole 1\nbios b\nconsole 2\nbios b\ncart c\noff 16\nend\n",
    ),
    // what saves are kept in, after the save or what stands before it; SRAM has no line
    (
        b"gbalink 2\ncycles 4\nconsole 0\nbackup flash128\noff 1\nsave s\nbios b\ncart c\nconsole 1\nkey 1 001\nbios b\nbackup flash64\nend\n",
        b"gbalink 2\ncycles 4\nlink 0 1 512\nlink 1 0 512\nconsole 0\nbios b\ncart c\nsave s\nbackup flash128\noff 1\nconsole 1\nbios b\nbackup flash64\nkey 1 001\nend\n",
    ),
    (
        b"gbalink 2\ncycles 4\nconsole 0\nbackup sram\nsave s\nbios b\nconsole 1\nbios b\ncart c\nbackup flash64\nout save\nend\n",
        b"gbalink 2\ncycles 4\nlink 0 1 512\nlink 1 0 512\nconsole 0\nbios b\nsave s\nconsole 1\nbios b\ncart c\nbackup flash64\nout save\nend\n",
    ),
    // a job of version 1 without a line of a delay
    (
        b"gbalink 1\ncycles 4\nconsole 0\nbios b\nconsole 1\nbios b\nend\n",
        b"gbalink 2\ncycles 4\nlink 0 1 512\nlink 1 0 512\nconsole 0\nbios b\nconsole 1\nbios b\nend\n",
    ),
];

/// Whether this is the log of the text's job.
fn has_log(alloc: Global, text: &[u8], want: &[u8]) -> Result<bool, AllocError> {
    Ok(log_of(alloc, text)?.as_slice() == want)
}

// The log of each job, and the log of that log.
#[test]
fn logs_have_one_spelling(rt: HostRuntime) -> Result<(), Fail> {
    for &(text, want) in &LOGS {
        assert!(rt; has_log(rt.alloc(), text, want)?, "of {text:?}");
        assert!(rt; has_log(rt.alloc(), want, want)?, "of the log of {text:?}");
    }
    Ok(())
}
