//! Which files are read for an answer, and readings that fail.
use crate::projects::files_of;
use crate::sinks::Sink;
use inc_answers::{End, EndKind, Question, RunFault, run_why};
use inc_lookup::{FileId, HeldFiles, Project, Sources};
use inc_text::{Language, ReadFault, Writing};
use std::alloc::Global;
use std::test::Fail;

/// Held files that note which are read, and hold nothing when they are read again. The reading of one of them fails.
#[derive(Drop)]
struct Noting<'f> {
    held: HeldFiles<'f>,
    read: Vec<usize>,
    fails: Option<(usize, ReadFault)>,
}

impl Sources for Noting<'_> {
    ghost gives = { λ s file answer t. Unit {0} };

    fn read(&mut self, alloc: Global, file: FileId) -> Result<Vec<u8>, ReadFault> {
        let place = file.index();
        let again = self.read.iter().any(|read| *read == place);
        if self.read.push(place).is_err() {
            return Err(ReadFault::NoMemory);
        }
        if again {
            return Ok(Vec::new(alloc));
        }
        if let Some((at, fault)) = self.fails {
            if at == place {
                return Err(fault);
            }
        }
        self.held.read(alloc, file)
    }
}

/// Two ways to `t.h`, which includes on, and a file that nothing includes.
const TWO_WAYS: &str = "@apart.h
#include \"t.h\"
@b.h
#include \"t.h\"
@m.c
#include \"a.h\"
#include \"b.h\"
#include \"a.h\"
@t.h
#include \"apart.h\"
@a.h
#include \"b.h\"
#include \"m.c\"
#include \"t.h\"
";

/// How a call ended, or the place of the file that was not read and why.
type Ending = (Option<EndKind>, Option<(usize, ReadFault)>);

fn ending(outcome: &Result<End, RunFault>) -> Ending {
    match outcome {
        Ok(end) => (Some(end.kind), None),
        Err(RunFault::CannotRead { file }) => (None, Some((file.index(), ReadFault::Read))),
        Err(RunFault::FileTooLong { file }) => (None, Some((file.index(), ReadFault::TooLong))),
        Err(_) => (None, None),
    }
}

/// How a call ends of which this reading fails, the places of the files that were read, in order, and how many bytes were written.
fn asked(
    alloc: Global,
    fails: Option<(usize, ReadFault)>,
) -> Result<(Ending, Vec<usize>, usize), Fail> {
    let files = files_of(alloc, TWO_WAYS)?;
    let held = HeldFiles { files: &files };
    let paths = held.paths(alloc)?;
    let project = Project::new(alloc, 0, &paths, 0, &[])?;
    let mut sources = Noting {
        held,
        read: Vec::new(alloc),
        fails,
    };
    let mut sink = Sink::new(alloc, 10_000, 100);
    let question = Question {
        from: &[b"m.c"],
        to: Some(&[b"t.h"]),
        without: &[],
        language: Language::C17,
        undefined: &[],
        others: &[],
        read_with: &[],
        is_strict: false,
        external: &[],
    };
    let out = Writing::new(&mut sink);
    let (outcome, _) = run_why(alloc, &project, &mut sources, &question, false, None, out);
    Ok((ending(&outcome), sources.read, sink.taken.len()))
}

const ANSWER: &[u8] =
    b"shortest 2\n1 m.c\n3 a.h\nchains 2\nchain 2\n2 m.c\n1 b.h\nchain 2\n1 m.c\n3 a.h\nmissing 0\nblocked 0\n";

const ANSWERED: Ending = (Some(EndKind::Answered), None);

/// The reading that fails, how the call ends, the files that were read, and how many bytes were written.
type Row = (Option<(usize, ReadFault)>, Ending, &'static [usize], usize);

static READS: &[Row] = &[
    // Files are read once, as they are reached.
    (None, ANSWERED, &[2, 4, 1], ANSWER.len()),
    // A file that is not reached is not read, and neither is the header.
    (
        Some((0, ReadFault::Read)),
        ANSWERED,
        &[2, 4, 1],
        ANSWER.len(),
    ),
    (
        Some((3, ReadFault::Read)),
        ANSWERED,
        &[2, 4, 1],
        ANSWER.len(),
    ),
    // The first reading that fails is answered.
    (
        Some((4, ReadFault::Read)),
        (None, Some((4, ReadFault::Read))),
        &[2, 4],
        0,
    ),
    (
        Some((2, ReadFault::TooLong)),
        (None, Some((2, ReadFault::TooLong))),
        &[2],
        0,
    ),
];

#[test]
fn files_are_read_once_as_they_are_reached(rt: HostRuntime) -> Result<(), Fail> {
    for (fails, ending, places, written) in READS {
        let (ended, read, len) = asked(rt.alloc(), *fails)?;
        assert_eq!(rt; ended, *ending);
        assert_eq!(rt; read.as_slice(), *places);
        assert_eq!(rt; len, *written);
    }
    Ok(())
}
