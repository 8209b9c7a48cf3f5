//! Prints what library calls give that no command makes, for the examples on standard input. They are in `stdin`, and what they must give is in `stdout`: values of the
//! standard and of graph theory, never what this program printed.
//!
//! A line `== KIND: NAME` begins an example. What is before the first one is a heading. Most have a project: settings, one a line, then `@PATH` for each file and what it holds.
//! Its source is `m.c` and its header `t.h`; where it has `n.c` that is a source too, and `u.h` a header.
//!
//! | Kind | Settings, and what is after the files | The answer |
//! |---|---|---|
//! | `cut` | `fixed LINE PATH`, `cost AMOUNT LINE PATH` | by each search the cut, and what the checker says of the certificate; or the chain of fixed directives |
//! | `certificate` | the same | by each search the text of the certificate; that it is read as it was written |
//! | `failing searches` | the same | how a cut ends whose search has no memory when it is asked for the first time, the second time .. |
//! | `first path` | the same | the first path that a search by levels finds |
//! | `path by looking` | the same, and `step LINE PATH` for the directives of a path | how often a search gives this path, which looks at it first and else searches depth first; the text of the certificate by it |
//! | `all projects` | none | of all projects that have each include of these, fixed or not, or lack it, how many have a cut of 0, 1, 2 .. directives, which the checker accepts, and how many have none |
//! | `verdicts` | the same; certificates, each after a line `--` | what the checker says of each |
//! | `fronts` | the lines of a certificate | of each of its fronts the line where it breaks off |
//! | `costs` | amounts | whether a cost can have each |
//! | `include costs` | `weight AMOUNT` for each file in turn, `group PATH` for the files of a group | what all sources weigh; what each directive and each file costs them, and how many of them; the four dearest files; what the group costs |
//! | `marks`, `cost list` | a text | the marks, or the costs, that it is the text of, or the line that is malformed |
//!
//! Where the gate runs what the analyser and the preprocessor have to show: `calls`, `data`, `pp`, `cond` and `devices` are examples and tests of `crates/tests_..`, the others
//! stored runs of `tests/cases/` and programs of `tests/`.
//!
//! | What is shown | Where |
//! |---|---|
//! | a file without bytes | `pp` preprocessing; `data` text, tokens, links; `pp_of_an_empty_file` |
//! | trigraphs, splices, CR LF, the byte order mark | `data` text, places; `pp_trigraph_after_a_question_mark`; `scan_of_an_include_after_a_byte_order_mark` |
//! | an include after a comment over lines, with a splice | `scan_of_..`, `why_of_an_include_after_a_comment_with_a_splice` |
//! | a nested replacement that the standard leaves open | `data` expansion: the nested f |
//! | the examples of 6.10.3.3 and 6.10.3.5 | `data` expansion; `pp_.._as_in_..` |
//! | what a call of no macro, an unclosed one and one with an argument too many gives; what a call costs | `data` expansion, cost |
//! | variable arguments, pastes by `##` and `%:%:`, strings and their faults | `data` expansion; `pp_stops_at_a_string_of_65537_bytes` |
//! | macros that double thirty times, arguments 1,000 and 1,001 deep, names of 65,536 bytes | `pp_stops_at_macros_that_..`, `pp_.._nested_100._deep`, `pp_doubles_..` |
//! | definitions, their faults, words, removals | `data` macros |
//! | classes of whole spellings | `data` classes |
//! | controlling expressions, their faults, nested 256 and 100,000 deep | `cond`; `pp_conditions_of_mixed_signs_..`, `pp_.._nested_25._deep_..`, `pp_stops_at_100000_..` |
//! | links of branches, faults of sections; 100,000 nested groups | `data` links; `pp_of_100000_groups_nested` |
//! | normal forms; header search beside the file and in the directories | `data` normal forms, project; `why_of_an_include_that_climbs` |
//! | faults of a list: a path twice, a bad one, too many, a file too long | `data` project; `list_of_one_file_too_many`, `file_one_byte_too_long` |
//! | paths of a list, and lists without a last LF | `list_with_empty_lines_..`, `cut_with_a_list_of_carriage_returns_..` |
//! | `#line`, `__FILE__`, `__DATE__`; settings that are none | `pp_line_number_and_name_..`; `pp` preprocessing: a quote in a date |
//! | an include by a paste and a string | `pp` preprocessing; `pp_computed_include_..`, `cut_refuses_a_computed_include` |
//! | a call on both sides of an include, the include removed or not found | `pp` preprocessing |
//! | a file that includes itself, once or 201 times; 100,000 reads | `pp` preprocessing; `pp_stops_at_includes_..`, `pp_stops_at_too_many_files` |
//! | a header that is read again under another macro and line number | `pp_of_a_header_read_again_..` |
//! | equal sets of hidden names | `pp` hidden names |
//! | directives of a source, of standard input without a word, and one that is bad | `scan_..`; `crates/incut/stdin` |
//! | marks that are none, and lists of marks and costs that are | `data` marks; `calls` marks, cost list, costs |
//! | edges, missing and blocked includes, edges from and to a file | `data` graph |
//! | shortest chains, and each last directive | `data` graph; `why_prints_each_last_directive`, `why_of_a_header_that_is_not_reached` |
//! | 1,000,000 directives, and one more; a ring of 65,535 files | `why_of_the_most_directives`, `refusal_of_too_many_directives`; `.._of_a_chain_of_the_most_files` |
//! | cuts: two ways, one in the way of two, after a fixed one, all fixed, none, the header itself | `calls` cut, certificate; `cut_..`; `tests/cuts` |
//! | the files of a cut with its directives blanked, or taken out by a diff; those of no cut | `blank_..`, `patch_..`; `tests/headline`, `tests/patches` |
//! | the nearest cut by cost, a chain that counts twice | `calls` certificate, verdicts; `cut_by_the_greatest_costs` |
//! | cuts between two sources and two headers, of which one leads to the other | `calls` cut, verdicts: sets |
//! | one cut by every search, one of which finds its path by looking | `calls` cut, certificate, path by looking |
//! | the first path of a search by levels; searches without memory | `calls` first path, failing searches |
//! | all projects of four files | `calls` all projects |
//! | verdicts and the first of their reasons; certificates that break off | `calls` verdicts, fronts; `check_..` |
//! | refusals of a question, in order | `refusal_of_..`, `cut_refuses_..`, `cut_ignores_..` |
//! | the extended language | `cond`; `pp_extended_..`, `pp_of_c17_..`, `scan_.._elifndef_..` |
//! | readers and writers that fail, take nothing or never end | `devices`; `tests/refusals`; `.._that_never_ends` |
//! | each request for memory refused, and calls that take none | `tests/refusals`, over `calls`, `data` and `pp` |
#![tactic(auto)]

mod certificates;
mod cuts;
mod edges;
mod families;
mod graphs;
mod include_costs;
mod lists;
mod looking;
mod searches;

use crate::certificates::{add_costs, add_fronts};
use crate::cuts::{Printed, add_asked};
use crate::families::add_family;
use crate::include_costs::add_include_costs;
use crate::lists::{add_cost_list, add_marks};
use std::alloc::Global;
use std::process::ExitCode;
use tests_parts::{Answers, Stop, run};

fn main(rt: HostRuntime) -> ExitCode {
    match run::<Calls>(&rt) {
        Ok(()) => ExitCode::from(0),
        Err(_) => ExitCode::from(1),
    }
}

/// Answers by calls about cuts and certificates.
struct Calls;

impl Answers for Calls {
    fn add(alloc: Global, example: &str, out: &mut Vec<u8>) -> Result<(), Stop> {
        let Some((kind, _)) = example.split_once(": ") else {
            return Err(Stop);
        };
        match kind {
            "cut" => add_asked(alloc, example, Printed::Cuts, out),
            "certificate" => add_asked(alloc, example, Printed::Certificates, out),
            "failing searches" => add_asked(alloc, example, Printed::Failures, out),
            "first path" => add_asked(alloc, example, Printed::FirstPath, out),
            "all projects" => add_family(alloc, out),
            "path by looking" => add_asked(alloc, example, Printed::Looked, out),
            "verdicts" => add_asked(alloc, example, Printed::Verdicts, out),
            "fronts" => add_fronts(alloc, example, out),
            "costs" => add_costs(alloc, example, out),
            "include costs" => add_include_costs(alloc, example, out),
            "marks" => add_marks(alloc, example, out),
            "cost list" => add_cost_list(alloc, example, out),
            _ => Err(Stop),
        }
    }
}
