//! Certificates whose source gives little at a time, ends early or fails.
use crate::projects::files_of;
use crate::sinks::Sink;
use inc_answers::{End, EndKind, Limits, Question, RunFault};
use inc_lookup::{HeldFiles, Project};
use inc_report::run_check;
use inc_text::{Language, Reading, Writing};
use std::alloc::Global;
use std::io;
use std::io::Read;
use std::test::Fail;

/// A reader over a text, a few bytes at a time, and then the end or an error.
#[derive(Drop)]
struct Parts<'t> {
    left: &'t [u8],
    piece: usize,
    fails: bool,
}

impl Read for Parts<'_> {
    fn read(&mut self, into: &mut [u8]) -> io::Result<usize> {
        if self.left.is_empty() && self.fails {
            return Err(io::Error::from(io::ErrorKind::Other));
        }
        let count = self.left.len().min(self.piece).min(into.len());
        into[..count].copy_from_slice(&self.left[..count]);
        self.left = &self.left[count..];
        Ok(count)
    }
}

const CERTIFICATE: &[u8] = b"cut 1\n1 m.c\nchains 1\nchain 1\n1 m.c\n";

/// How `check` of so many bytes of the certificate ends, and what it writes.
fn checked(alloc: Global, parts: Parts<'_>) -> Result<(Result<EndKind, RunFault>, Vec<u8>), Fail> {
    let files = files_of(alloc, "@m.c\n#include \"t.h\"\n@t.h\n")?;
    let mut held = HeldFiles { files: &files };
    let paths = held.paths(alloc)?;
    let project = Project::new(alloc, 0, &paths, 0, &[])?;
    let question = Question {
        from: &[b"m.c"],
        to: Some(&[b"t.h"]),
        without: &[],
        language: Language::C17,
        undefined: &[],
        others: &[],
        read_with: &[],
        is_strict: false,
        external: &[],
    };
    let limits = Limits {
        fixed: &[],
        kept: &[],
        costs: &[],
    };
    let mut sink = Sink::new(alloc, 100, 100);
    let out = Writing::new(&mut sink);
    let mut certificate = Reading::new(parts);
    let (ended, _) = run_check(
        alloc,
        &project,
        &mut held,
        &question,
        &limits,
        &mut certificate,
        out,
    );
    Ok((ending(ended), sink.taken))
}

/// How a call ends, beside whose answer nothing is noted: in this project each header is found.
fn ending(outcome: Result<End, RunFault>) -> Result<EndKind, RunFault> {
    match outcome {
        Ok(end) => Ok(end.kind),
        Err(fault) => Err(fault),
    }
}

#[test]
fn certificates_in_small_pieces(rt: HostRuntime) -> Result<(), Fail> {
    for piece in 1..8 {
        let parts = Parts {
            left: CERTIFICATE,
            piece,
            fails: false,
        };
        let (ended, written) = checked(rt.alloc(), parts)?;
        assert_eq!(rt; ended, Ok(EndKind::Answered));
        assert_eq!(rt; written.as_slice(), b"yes\n".as_slice());
    }
    Ok(())
}

#[test]
fn certificates_whose_source_fails(rt: HostRuntime) -> Result<(), Fail> {
    for len in 0..CERTIFICATE.len() + 1 {
        let parts = Parts {
            left: &CERTIFICATE[..len],
            piece: 3,
            fails: true,
        };
        let (ended, written) = checked(rt.alloc(), parts)?;
        assert_eq!(rt; ended, Err(RunFault::CannotReadCertificate));
        assert!(rt; written.is_empty());
    }
    Ok(())
}

/// How long a certificate is, and what is written of it.
static FRONTS: &[(usize, &[u8])] = &[
    (0, b"refused 7 malformed 1\n"),
    (5, b"refused 7 malformed 1\n"),
    (6, b"refused 7 malformed 2\n"),
    (20, b"refused 7 malformed 3\n"),
    (21, b"refused 7 malformed 4\n"),
    (34, b"refused 7 malformed 5\n"),
];

#[test]
fn certificates_that_break_off(rt: HostRuntime) -> Result<(), Fail> {
    for (len, want) in FRONTS {
        let parts = Parts {
            left: &CERTIFICATE[..*len],
            piece: 2,
            fails: false,
        };
        let (ended, written) = checked(rt.alloc(), parts)?;
        assert_eq!(rt; ended, Ok(EndKind::Refused));
        assert_eq!(rt; written.as_slice(), *want);
    }
    Ok(())
}
