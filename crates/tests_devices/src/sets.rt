//! Questions about several sources and several headers.
use crate::projects::files_of;
use crate::sinks::Sink;
use inc_answers::{EndKind, Limits, Question, run_why};
use inc_lookup::{HeldFiles, Project};
use inc_report::{run_check, run_cut};
use inc_text::{Language, Reading, Writing};
use std::alloc::Global;
use std::test::Fail;

/// `b.c` leads to another source, and `u.h` is behind another header alone.
const FILES: &str = "@a.c
#include \"x.h\"
#include \"m.h\"
@b.c
#include \"m.h\"
#include \"a.c\"
@m.h
#include \"t.h\"
@t.h
#include \"u.h\"
@u.h
@x.h
#include \"v.h\"
@v.h
";

/// Sources, headers, and what `why` and `cut` write.
struct Row {
    from: &'static [&'static [u8]],
    to: &'static [&'static [u8]],
    why: &'static [u8],
    cut: &'static [u8],
}

static ROWS: &[Row] = &[
    // Lists in any order, with paths that are no normal forms and files that are there twice. What a header holds is not read.
    Row {
        from: &[b"./b.c", b"a.c", b"b.c"],
        to: &[b"u.h", b"t.h"],
        why: b"shortest 2\n2 a.c\n1 m.h\nchains 1\nchain 2\n2 a.c\n1 m.h\nmissing 0\nblocked 0\n",
        cut: b"cut 1\n1 m.h\nchains 1\nchain 2\n2 a.c\n1 m.h\n",
    },
    // A chain for each header.
    Row {
        from: &[b"a.c", b"b.c"],
        to: &[b"t.h", b"v.h"],
        why: b"shortest 2\n1 a.c\n1 x.h\nchains 2\nchain 2\n2 a.c\n1 m.h\nchain 2\n1 a.c\n1 x.h\nmissing 0\nblocked 0\n",
        cut: b"cut 2\n1 a.c\n1 m.h\nchains 2\nchain 2\n1 a.c\n1 x.h\nchain 2\n2 a.c\n1 m.h\n",
    },
    // Behind a header that is none of those asked for.
    Row {
        from: &[b"a.c"],
        to: &[b"u.h"],
        why: b"shortest 3\n2 a.c\n1 m.h\n1 t.h\nchains 1\nchain 3\n2 a.c\n1 m.h\n1 t.h\nmissing 0\nblocked 0\n",
        cut: b"cut 1\n2 a.c\nchains 1\nchain 3\n2 a.c\n1 m.h\n1 t.h\n",
    },
    // A source that another one includes is a header.
    Row {
        from: &[b"b.c", b"x.h"],
        to: &[b"a.c", b"x.h"],
        why: b"shortest 0\nchains 1\nchain 1\n2 b.c\nmissing 0\nblocked 0\n",
        cut: b"fixed 0\n",
    },
    Row {
        from: &[],
        to: &[b"t.h"],
        why: b"shortest none\nchains 0\nmissing 0\nblocked 0\n",
        cut: b"cut 0\nchains 0\n",
    },
    // A path in the middle that names no file, sources first; no header at all.
    Row {
        from: &[b"a.c", b"z.c", b"b.c"],
        to: &[b"t.h", b"z.h", b"u.h"],
        why: b"refused 1 no such source\n",
        cut: b"refused 1 no such source\n",
    },
    Row {
        from: &[b"a.c", b"b.c"],
        to: &[b"t.h", b"z.h", b"u.h"],
        why: b"refused 2 no such header\n",
        cut: b"refused 2 no such header\n",
    },
    Row {
        from: &[b"a.c"],
        to: &[],
        why: b"refused 2 no such header\n",
        cut: b"refused 2 no such header\n",
    },
];

/// What `why`, `cut` and, of what `cut` wrote, `check` write.
fn answers(alloc: Global, row: &Row) -> Result<[Vec<u8>; 3], Fail> {
    let files = files_of(alloc, FILES)?;
    let mut held = HeldFiles { files: &files };
    let paths = held.paths(alloc)?;
    let project = Project::new(alloc, 0, &paths, 0, &[])?;
    let question = Question {
        from: row.from,
        to: Some(row.to),
        without: &[],
        language: Language::C17,
        undefined: &[],
        others: &[],
        read_with: &[],
        is_strict: false,
        external: &[],
    };
    let limits = Limits {
        fixed: &[],
        kept: &[],
        costs: &[],
    };
    let mut why = Sink::new(alloc, 1_000, 100);
    let _ = run_why(
        alloc,
        &project,
        &mut held,
        &question,
        false,
        None,
        Writing::new(&mut why),
    );
    let mut cut = Sink::new(alloc, 1_000, 100);
    let out = Writing::new(&mut cut);
    let (ended, _) = run_cut(alloc, &project, &mut held, &question, &limits, out);
    let mut checked = Sink::new(alloc, 1_000, 100);
    if matches!(&ended, Ok(end) if end.kind == EndKind::Answered) {
        let mut certificate = Reading::new(cut.taken.as_slice());
        let out = Writing::new(&mut checked);
        let _ = run_check(
            alloc,
            &project,
            &mut held,
            &question,
            &limits,
            &mut certificate,
            out,
        );
    }
    Ok([why.taken, cut.taken, checked.taken])
}

#[test]
fn several_sources_and_several_headers(rt: HostRuntime) -> Result<(), Fail> {
    for row in ROWS {
        let [why, cut, checked] = answers(rt.alloc(), row)?;
        assert_eq!(rt; why.as_slice(), row.why);
        assert_eq!(rt; cut.as_slice(), row.cut);
        let accepted: &[u8] = if row.cut.starts_with(b"cut") {
            b"yes\n"
        } else {
            b""
        };
        assert_eq!(rt; checked.as_slice(), accepted);
    }
    Ok(())
}
