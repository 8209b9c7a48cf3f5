//! What is written where a writer is full, and of a source that is too long.
use crate::projects::files_of;
use crate::sinks::Sink;
use inc_answers::{End, EndKind, Limits, Question, RunFault, ScanForm, run_scan, run_why};
use inc_lookup::{HeldFiles, Project};
use inc_report::run_blank;
use inc_text::{Language, Writing};
use std::alloc::Global;
use std::process::Abort;
use std::test::Fail;

/// What a call writes where there is room, what it notes beside that, and how it ends.
#[derive(Drop)]
struct Want {
    text: &'static [u8],
    notes: &'static [u8],
    kind: EndKind,
}

/// A call that is answered with this text, and notes nothing.
fn answered(text: &'static [u8]) -> Want {
    Want {
        text,
        notes: b"",
        kind: EndKind::Answered,
    }
}

/// What a writer with so much room has taken of a text, and how the call ends.
fn check_sink(rt: &impl Abort, sink: &Sink, outcome: Result<End, RunFault>, want: &Want) {
    let fits = sink.room >= want.text.len();
    assert_eq!(rt;
        sink.taken.as_slice(),
        &want.text[..sink.room.min(want.text.len())]
    );
    match outcome {
        Ok(end) => {
            assert!(rt; fits && end.kind == want.kind);
            assert_eq!(rt; end.notes.text(), want.notes);
        }
        Err(fault) => assert!(rt; !fits && fault == RunFault::Write),
    }
}

/// A path, its source, and what is wanted of them.
type Scan = (&'static [u8], &'static [u8], Want);

static SCANS: &[Scan] = &[
    (
        b"-",
        b"#include <a>\n#include \"b\"\n",
        Want {
            text: b"directives 2\n1 angled a\n2 quoted b\n",
            notes: b"",
            kind: EndKind::Answered,
        },
    ),
    (
        b"a b\xff.h",
        b"int a;\n/* b\nc",
        Want {
            text: b"refused 3 bad file\n2 a b\xff.h\n",
            notes: b"incut: a b\\xff.h:2: unterminated comment\n",
            kind: EndKind::Refused,
        },
    ),
];

fn check_scan(rt: &impl Abort, alloc: Global, scan: &Scan) {
    let (path, source, want) = scan;
    for room in 0..40 {
        let mut sink = Sink::new(alloc, room, 3);
        let out = Writing::new(&mut sink);
        let (outcome, _) = run_scan(alloc, path, source, Language::C17, ScanForm::Text, out);
        check_sink(rt, &sink, outcome, want);
    }
}

#[test]
fn full_writers_of_scans(rt: HostRuntime) {
    for scan in SCANS {
        check_scan(&rt, rt.alloc(), scan);
    }
}

#[test]
fn a_source_that_is_too_long(rt: HostRuntime) -> Result<(), Fail> {
    let source = vec![in rt.alloc(); b' '; 16_777_217]?;
    let mut sink = Sink::new(rt.alloc(), 100, 100);
    let out = Writing::new(&mut sink);
    let (outcome, _) = run_scan(
        rt.alloc(),
        b"-",
        &source,
        Language::Extended,
        ScanForm::Text,
        out,
    );
    let want = Want {
        text: b"refused 9 too long\n",
        notes: b"",
        kind: EndKind::Refused,
    };
    check_sink(&rt, &sink, outcome, &want);
    Ok(())
}

fn check_why(rt: &impl Abort, alloc: Global, project: &Project<'_>, files: &mut HeldFiles<'_>) {
    let want = answered(b"shortest 1\n1 m.c\nchains 1\nchain 1\n1 m.c\nmissing 0\nblocked 0\n");
    let question = Question {
        from: &[b"m.c"],
        to: Some(&[b"t.h"]),
        without: &[],
        language: Language::C17,
        undefined: &[],
        others: &[],
        read_with: &[],
        is_strict: false,
        external: &[],
    };
    for room in 0..want.text.len() {
        let mut sink = Sink::new(alloc, room, 7);
        let out = Writing::new(&mut sink);
        let (outcome, _) = run_why(alloc, project, files, &question, false, None, out);
        check_sink(rt, &sink, outcome, &want);
    }
}

#[test]
fn full_writers_of_an_answer(rt: HostRuntime) -> Result<(), Fail> {
    let alloc = rt.alloc();
    let files = files_of(alloc, "@m.c\n#include \"t.h\"\n@t.h\n")?;
    let mut held = HeldFiles { files: &files };
    let paths = held.paths(alloc)?;
    let project = Project::new(alloc, 0, &paths, 0, &[])?;
    check_why(&rt, alloc, &project, &mut held);
    Ok(())
}

/// The files are lent for one call after the other, which gives them back.
fn check_blank(rt: &impl Abort, alloc: Global, project: &Project<'_>, files: HeldFiles<'_>) {
    let want = answered(b"files 1\nfile 15 m.c\n              \n\n");
    let question = Question {
        from: &[b"m.c"],
        to: Some(&[b"t.h"]),
        without: &[],
        language: Language::C17,
        undefined: &[],
        others: &[],
        read_with: &[],
        is_strict: false,
        external: &[],
    };
    let limits = Limits {
        fixed: &[],
        kept: &[],
        costs: &[],
    };
    let mut lent = files;
    for room in 0..=want.text.len() {
        let mut sink = Sink::new(alloc, room, 5);
        let out = Writing::new(&mut sink);
        let (outcome, back, _) = run_blank(alloc, project, lent, &question, &limits, out);
        lent = back;
        check_sink(rt, &sink, outcome, &want);
    }
}

#[test]
fn full_writers_of_blanked_files(rt: HostRuntime) -> Result<(), Fail> {
    let alloc = rt.alloc();
    let files = files_of(alloc, "@m.c\n#include \"t.h\"\n@t.h\n")?;
    let held = HeldFiles { files: &files };
    let paths = held.paths(alloc)?;
    let project = Project::new(alloc, 0, &paths, 0, &[])?;
    check_blank(&rt, alloc, &project, held);
    Ok(())
}
