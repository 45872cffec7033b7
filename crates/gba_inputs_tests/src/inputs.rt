//! The inputs of jobs over stores in memory.

use gba_command::{Cause, Refusal};
use gba_inputs::{Inputs, fill, fill_job, laws, read_inputs};
use gba_joblog::{FileLine, Job, digest_of};
use gba_log::{print, printed_len};
use gba_store::{MemoryStore, StoredFile};
use std::alloc::{AllocError, Global};
use std::test::Fail;

// A file of zeros but for these bytes.
fn zeros(
    alloc: Global,
    name: &str,
    length: usize,
    changes: &[(usize, u8)],
) -> Result<StoredFile, AllocError> {
    let mut bytes = vec![in alloc; 0u8; length]?;
    for (at, byte) in changes {
        if let Some(place) = bytes.get_mut(*at) {
            *place = *byte;
        }
    }
    Ok(StoredFile {
        name: String::from_str(alloc, name)?,
        bytes,
    })
}

fn text_file(alloc: Global, name: &str, text: &[u8]) -> Result<StoredFile, AllocError> {
    Ok(StoredFile {
        name: String::from_str(alloc, name)?,
        bytes: Vec::from_slice(alloc, text)?,
    })
}

// Images that pass their checks, images that don't, and key files. The reads of these numbers fail.
fn store_with(alloc: Global, failing: &[u64]) -> Result<MemoryStore, AllocError> {
    let mut files = Vec::new(alloc);
    files.push(zeros(alloc, "bios", 16_384, &[])?)?;
    files.push(zeros(alloc, "short", 16_383, &[])?)?;
    files.push(zeros(alloc, "cart", 192, &[(0xB2, 0x96), (0xBD, 0x51)])?)?;
    files.push(zeros(alloc, "wrong", 192, &[(0xB2, 0x96), (0xBD, 0x52)])?)?;
    files.push(zeros(alloc, "save", 32_768, &[])?)?;
    files.push(zeros(alloc, "long", 32_769, &[])?)?;
    files.push(zeros(alloc, "half", 65_536, &[])?)?;
    files.push(zeros(alloc, "whole", 131_072, &[])?)?;
    files.push(zeros(alloc, "longer", 131_073, &[])?)?;
    files.push(text_file(alloc, "keys", b"5 001\n7 3FF\n")?)?;
    files.push(text_file(alloc, "falls", b"5 001\n4 3FF\n")?)?;
    Ok(MemoryStore::new(files, Vec::from_slice(alloc, failing)?))
}

// How a reading ended, as a report says it.
fn told(alloc: Global, end: &Result<Vec<Inputs>, Refusal>) -> Result<Vec<u8>, AllocError> {
    match end {
        Ok(_) => Vec::from_slice(alloc, b"read"),
        Err(Refusal::Refused(cause)) => Vec::from_slice(alloc, cause.report().as_slice()),
        Err(Refusal::Absent(name)) => {
            let mut text = Vec::from_slice(alloc, b"absent ")?;
            text.extend_from_slice(name.as_slice())?;
            Ok(text)
        }
        Err(Refusal::StoreFault(name)) => {
            let mut text = Vec::from_slice(alloc, b"store ")?;
            text.extend_from_slice(name.as_slice())?;
            Ok(text)
        }
        Err(Refusal::NoMemory) => Vec::from_slice(alloc, b"memory"),
    }
}

// How the reading of a job with these lines of consoles ends.
fn ends(alloc: Global, lines: &[u8], failing: &[u64]) -> Result<Vec<u8>, AllocError> {
    let mut text = Vec::from_slice(alloc, b"gbalink 2\ncycles 1\n")?;
    text.extend_from_slice(lines)?;
    text.extend_from_slice(b"\nend\n")?;
    match Job::parse(alloc, &text) {
        Ok(job) => {
            let mut store = store_with(alloc, failing)?;
            told(
                alloc,
                &read_inputs(alloc, &mut store, job.consoles.as_slice()),
            )
        }
        Err(_) => Vec::from_slice(alloc, b"no job"),
    }
}

// Lines, the numbers of the reads that fail, and how the reading ends. The digests are those of `sha256sum`.
static ENDS: [(&[u8], &[u64], &[u8]); 35] = [
    (b"console 0\nbios bios", &[], b"read"),
    (
        b"console 0\nbios bios\nkeys keys\nsave save\ncart cart",
        &[],
        b"read",
    ),
    (b"console 0\nbios none", &[], b"absent none"),
    (b"console 0\nbios short", &[], b"image short BiosLength\n"),
    (b"console 0\nbios save", &[], b"image save BiosLength\n"),
    (b"console 0\ncart none\nbios bios", &[], b"absent none"),
    (
        b"console 0\ncart wrong\nbios bios",
        &[],
        b"image wrong HeaderCheck\n",
    ),
    (
        b"console 0\nsave long\nbios bios",
        &[],
        b"image long SaveLength\n",
    ),
    (
        b"console 0\nbios bios\nsave half",
        &[],
        b"image half SaveLength\n",
    ),
    (
        b"console 0\nbios bios\nbackup flash64\nsave half",
        &[],
        b"read",
    ),
    (
        b"console 0\nbios bios\nsave save\nbackup flash64",
        &[],
        b"image save SaveLength\n",
    ),
    (
        b"console 0\nbios bios\nsave whole\nbackup flash64",
        &[],
        b"image whole SaveLength\n",
    ),
    (
        b"console 0\nbios bios\nsave whole\nbackup flash128",
        &[],
        b"read",
    ),
    (
        b"console 0\nbios bios\nsave half\nbackup flash128",
        &[],
        b"image half SaveLength\n",
    ),
    (
        b"console 0\nbios bios\nsave longer\nbackup flash128",
        &[],
        b"image longer SaveLength\n",
    ),
    (b"console 0\nbios bios\nbackup flash128", &[], b"read"),
    (
        b"console 0\nkeys falls\nbios bios",
        &[],
        b"job falls line 2 Order\n",
    ),
    (b"console 0\nkeys none\nbios bios", &[], b"absent none"),
    (
        b"console 0\nkeys none\nsave none2\ncart wrong\nbios bios",
        &[],
        b"image wrong HeaderCheck\n",
    ),
    (
        b"console 0\nkeys none\nsave none2\ncart cart\nbios bios",
        &[],
        b"absent none2",
    ),
    (
        b"console 0\nbios bios\nconsole 1\nbios short",
        &[],
        b"image short BiosLength\n",
    ),
    (
        b"console 0\nbios bios\nkeys none\nconsole 1\nbios short",
        &[],
        b"absent none",
    ),
    (b"console 0\nbios bios\nsave save", &[1], b"store bios"),
    (b"console 0\nbios bios\nsave save", &[2], b"store save"),
    (b"console 0\nbios bios\nsave save", &[3], b"read"),
    (
        b"console 0\nbios bios\nconsole 1\nbios bios\nkeys keys",
        &[3],
        b"store keys",
    ),
    (
        b"console 0\nbios bios sha256 4fe7b59af6de3b665b67788cc2f99892ab827efae3a467342b3bb4e3bc8e5bfe",
        &[],
        b"read",
    ),
    (
        b"console 0\nbios bios sha256 c35020473aed1b4642cd726cad727b63fff2824ad68cedd7ffb73c7cbd890479",
        &[],
        b"digest bios stated c35020473aed1b4642cd726cad727b63fff2824ad68cedd7ffb73c7cbd890479 got 4fe7b59af6de3b665b67788cc2f99892ab827efae3a467342b3bb4e3bc8e5bfe\n",
    ),
    (
        b"console 0\nbios short sha256 c35020473aed1b4642cd726cad727b63fff2824ad68cedd7ffb73c7cbd890479",
        &[],
        b"image short BiosLength\n",
    ),
    (
        b"console 0\ncart cart sha256 4fe7b59af6de3b665b67788cc2f99892ab827efae3a467342b3bb4e3bc8e5bfe\nsave none\nbios bios",
        &[],
        b"digest cart stated 4fe7b59af6de3b665b67788cc2f99892ab827efae3a467342b3bb4e3bc8e5bfe got 27eaafceba64121dc1dd9ee392632473b0318065fdae32a70842ca8bd4f5e2e4\n",
    ),
    (
        b"console 0\nsave save sha256 4fe7b59af6de3b665b67788cc2f99892ab827efae3a467342b3bb4e3bc8e5bfe\nkeys none\nbios bios",
        &[],
        b"digest save stated 4fe7b59af6de3b665b67788cc2f99892ab827efae3a467342b3bb4e3bc8e5bfe got c35020473aed1b4642cd726cad727b63fff2824ad68cedd7ffb73c7cbd890479\n",
    ),
    (
        b"console 0\nkeys keys sha256 3cc18b1f0620f0cf9cd9c3a3ee4800badb6a8e0dd77f30c20e2d44c595d9f03b\nbios bios",
        &[],
        b"read",
    ),
    (
        b"console 0\nkeys keys sha256 4fe7b59af6de3b665b67788cc2f99892ab827efae3a467342b3bb4e3bc8e5bfe\nbios bios",
        &[],
        b"digest keys stated 4fe7b59af6de3b665b67788cc2f99892ab827efae3a467342b3bb4e3bc8e5bfe got 3cc18b1f0620f0cf9cd9c3a3ee4800badb6a8e0dd77f30c20e2d44c595d9f03b\n",
    ),
    (
        b"console 0\nkeys falls sha256 4fe7b59af6de3b665b67788cc2f99892ab827efae3a467342b3bb4e3bc8e5bfe\nbios bios",
        &[],
        b"job falls line 2 Order\n",
    ),
    (
        b"console 0\nbios bios\nconsole 1\nbios bios sha256 3cc18b1f0620f0cf9cd9c3a3ee4800badb6a8e0dd77f30c20e2d44c595d9f03b",
        &[],
        b"digest bios stated 3cc18b1f0620f0cf9cd9c3a3ee4800badb6a8e0dd77f30c20e2d44c595d9f03b got 4fe7b59af6de3b665b67788cc2f99892ab827efae3a467342b3bb4e3bc8e5bfe\n",
    ),
];

#[test]
fn readings_end_as_they_should(rt: HostRuntime) -> Result<(), Fail> {
    for (lines, failing, want) in &ENDS {
        let text = ends(rt.alloc(), lines, failing)?;
        assert_eq!(rt; text.as_slice(), *want, "of {lines:?}");
    }
    Ok(())
}

#[test]
fn causes_have_their_status(rt: HostRuntime) -> Result<(), Fail> {
    let text =
        b"gbalink 1\ncycles 1\nconsole 0\nbios bios sha256 c35020473aed1b4642cd726cad727b63fff2824ad68cedd7ffb73c7cbd890479\nend\n";
    match Job::parse(rt.alloc(), text) {
        Ok(job) => {
            let mut store = store_with(rt.alloc(), &[])?;
            match read_inputs(rt.alloc(), &mut store, job.consoles.as_slice()) {
                Err(Refusal::Refused(cause)) => {
                    assert_eq!(rt; cause.status(), 7);
                    assert!(rt; matches!(cause, Cause::Digest { .. }));
                }
                _ => panic!(rt; "the digest isn't compared"),
            }
        }
        Err(_) => panic!(rt; "no job"),
    }
    Ok(())
}

fn digest_at(file: &Option<FileLine>) -> Option<[u8; 32]> {
    match file {
        Some(file) => file.digest,
        None => None,
    }
}

// What is read for a console, and the console once it is written in.
#[test]
fn inputs_are_read_and_written_in(rt: HostRuntime) -> Result<(), Fail> {
    let text =
        b"gbalink 1\ncycles 1\nconsole 0\nkeys keys\nbios bios\nsave save\nout state\nconsole 1\nbios bios\ncart cart\nkey 9 001\nend\n";
    let Ok(mut job) = Job::parse(rt.alloc(), text) else {
        return Err(Fail::from("a job"));
    };
    let mut store = store_with(rt.alloc(), &[])?;
    let Ok(all) = read_inputs(rt.alloc(), &mut store, job.consoles.as_slice()) else {
        return Err(Fail::from("inputs"));
    };
    assert_eq!(rt; all.len(), 2);
    let bios = digest_of(&[0; 16_384]);
    let save = digest_of(&[0; 32_768]);
    let mut is_first = true;
    for (console, inputs) in job.consoles.iter_mut().zip(all) {
        assert_eq!(rt; inputs.digests.bios, bios);
        if is_first {
            assert_eq!(rt; inputs.digests.save, Some(save));
            assert_eq!(rt; inputs.digests.cart, None);
            assert!(rt; inputs.images.save.is_some() && inputs.images.cart.is_none());
            assert_eq!(rt; inputs.changes.len(), 2);
        } else {
            assert_eq!(rt; inputs.digests.save, None);
            assert!(rt; inputs.images.save.is_none() && inputs.images.cart.is_some());
            assert_eq!(rt; inputs.changes.len(), 1);
        }
        let cart = inputs.digests.cart;
        let changes = inputs.changes.len();
        let digests = inputs.digests;
        fill(console, &digests, inputs.changes);
        assert!(rt; console.keys.is_none());
        assert_eq!(rt; console.changes.len(), changes);
        assert_eq!(rt; console.bios.digest, Some(bios));
        assert_eq!(rt; digest_at(&console.cart), cart);
        assert_eq!(rt; digest_at(&console.save).is_some(), is_first);
        is_first = false;
    }
    Ok(())
}

// The log of a job of two consoles, whose digests are those of `sha256sum`.
static LOG: &[u8] =
    b"gbalink 2\ncycles 1\nlink 0 1 512\nlink 1 0 512\nconsole 0\nbios bios sha256 4fe7b59af6de3b665b67788cc2f99892ab827efae3a467342b3bb4e3bc8e5bfe\nsave save sha256 c35020473aed1b4642cd726cad727b63fff2824ad68cedd7ffb73c7cbd890479\nkey 5 001\nkey 7 3ff\nout state\nconsole 1\nbios bios sha256 4fe7b59af6de3b665b67788cc2f99892ab827efae3a467342b3bb4e3bc8e5bfe\ncart cart sha256 27eaafceba64121dc1dd9ee392632473b0318065fdae32a70842ca8bd4f5e2e4\nkey 9 001\nend\n";

// The log of a job, once what is read for it is written in; no bytes where it isn't read.
fn log_of(alloc: Global, text: &[u8]) -> Result<Vec<u8>, AllocError> {
    let Ok(mut job) = Job::parse(alloc, text) else {
        return Ok(Vec::new(alloc));
    };
    let mut store = store_with(alloc, &[])?;
    let Ok(mut all) = read_inputs(alloc, &mut store, job.consoles.as_slice()) else {
        return Ok(Vec::new(alloc));
    };
    fill_job(alloc, &mut job, all.as_mut_slice());
    let mut log = Vec::with_capacity(alloc, printed_len(&job) as usize)?;
    print(&job, &mut log);
    Ok(log)
}

#[test]
fn logs_say_what_was_read(rt: HostRuntime) -> Result<(), Fail> {
    let text =
        b"gbalink 1\ncycles 1\nconsole 0\nkeys keys\nbios bios\nsave save\nout state\nconsole 1\nbios bios\ncart cart\nkey 9 001\nend\n";
    let log = log_of(rt.alloc(), text)?;
    assert_eq!(rt; log.as_slice(), LOG);
    let again = log_of(rt.alloc(), log.as_slice())?;
    assert_eq!(rt; again.as_slice(), LOG);
    Ok(())
}

// A law answers nothing: that it holds is its contract.
#[test]
fn the_laws_are_stated() {
    laws::inputs_sound();
    laws::filled_sound();
    laws::inputs_again();
}
