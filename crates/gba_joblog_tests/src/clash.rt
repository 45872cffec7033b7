//! Output files that would be the job or one of its inputs.

use crate::helpers::{FIRST, job_of};
use std::alloc::Global;

/// Jobs, each with its name, the name of the outputs, and the line of the first clash.
static CLASHES: [(&[u8], &str, &str, Option<u64>); 20] = [
    (FIRST, "j", "g", None),
    (FIRST, "g.0.state", "g", Some(0)),
    (FIRST, "g.1.state", "g", None),
    (FIRST, "g.0.frames", "g", None),
    (FIRST, "g.0.statex", "g", None),
    (FIRST, "g.0.state", "g.", None),
    (
        b"gbalink 1\ncycles 1\nconsole 0\nbios g.0.state\nout state\nend\n",
        "j",
        "g",
        Some(4),
    ),
    (
        b"gbalink 1\ncycles 1\nconsole 0\nout state\nbios g.0.state\nend\n",
        "g.0.state",
        "g",
        Some(0),
    ),
    (
        b"gbalink 1\ncycles 1\nconsole 0\nbios g.0.state\nend\n",
        "g.0.state",
        "g",
        None,
    ),
    (
        b"gbalink 1\ncycles 1\nconsole 0\nbios b\nkeys g.0.state\nout state\nend\n",
        "j",
        "g",
        Some(5),
    ),
    (
        b"gbalink 1\ncycles 1\nconsole 0\nkeys g.0.state\nbios g.0.state\nout state\nend\n",
        "j",
        "g",
        Some(4),
    ),
    (FIRST, "g.log", "g", Some(0)),
    (FIRST, "g.logs", "g", None),
    (
        b"gbalink 1\ncycles 1\nconsole 0\nbios b\nconsole 1\nkeys g.log\nbios b\nend\n",
        "j",
        "g",
        Some(6),
    ),
    (
        b"gbalink 1\ncycles 1\nconsole 0\nbios .log\nend\n",
        "j",
        "g",
        None,
    ),
    (FIRST, "g.0.save", "g", None),
    (
        b"gbalink 1\ncycles 1\nconsole 0\nbios b\nout frames\nend\n",
        "g.0.frames",
        "g",
        Some(0),
    ),
    (
        b"gbalink 1\ncycles 1\nconsole 0\nbios g.1.words\nconsole 1\nbios b\nout words\nend\n",
        "j",
        "g",
        Some(4),
    ),
    (
        b"gbalink 1\ncycles 1\nconsole 0\nbios g.1.words\nout words\nconsole 1\nbios b\nend\n",
        "j",
        "g",
        None,
    ),
    (
        b"gbalink 1\ncycles 1\nconsole 0\nbios b\nout save\nconsole 1\nbios b\nconsole 2\nbios b\nsave g.0.save\nend\n",
        "j",
        "g",
        Some(10),
    ),
];

/// The same with OUT `g`, where `g.trace` is written too.
static CLASHES_BESIDE: [(&[u8], &str, Option<u64>); 4] = [
    (FIRST, "g.trace", Some(0)),
    (FIRST, "g.0.state", Some(0)),
    (FIRST, "g.0.trace", None),
    (
        b"gbalink 1\ncycles 1\nconsole 0\nbios b\ncart g.trace\nend\n",
        "j",
        Some(5),
    ),
];

/// Whether the text is a job that clashes so.
fn clashes(
    alloc: Global,
    text: &[u8],
    name: &str,
    out: &str,
    more: Option<&str>,
    want: Option<u64>,
) -> bool {
    match job_of(alloc, text) {
        Some(job) => job.clash(name, out, more) == want,
        None => false,
    }
}

#[test]
fn a_job_clashes_with_its_outputs(rt: HostRuntime) {
    for &(text, name, out, want) in &CLASHES {
        assert!(rt;
            clashes(rt.alloc(), text, name, out, None, want),
            "of {text:?} as {name}"
        );
    }
    for &(text, name, want) in &CLASHES_BESIDE {
        assert!(rt;
            clashes(rt.alloc(), text, name, "g", Some("g.trace"), want),
            "of {text:?} as {name}"
        );
    }
}
