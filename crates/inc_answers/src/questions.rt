//! Questions about sources and headers of a project.
ghost use Rattle.std.specs.Prelude.{◌≡◌, ◌≢◌, suc, Some, [], ◌∷◌, ◌++◌, Ok, Err, false, length, IfOk, IfSome, IfErr, OnOk};
ghost use Rattle.inc_lookup.specs.Given.{HoldsOfGiven, FailsAfter};
ghost use Rattle.inc_graph.specs.IncludeGraph.{AreAsked, IsGraphAnswer, IsRefusalWithin, IsSound};
ghost use Rattle.inc_graph.specs.ReadFiles.{IsOfClosure, IsOfFiles, IsReachedAfter, read_fault_of};
ghost use Rattle.inc_check.specs.Certificates.{IsEachPathOnce};
ghost use Rattle.inc_answers.specs.Known.{IsKnown};
ghost use Rattle.inc_answers.specs.Printed.{Printed};
ghost use Rattle.inc_answers.specs.NamedFiles.{headers_at, sources_at};
ghost use Rattle.inc_answers.specs.Questions.{FailsAt, IsAnswerBy, IsFirstUnnamed, IsNoEnds, IsRefusalOf, IsStopped, IsWithin, unread_by};
ghost use Rattle.inc_answers.specs.Refusals.{refusal_for};
ghost use Rattle.inc_answers.specs.Views.{seen_refusal};
ghost use Rattle.inc_answers.specs.Terms.{named_directive, named_directives, setting_in};
ghost use Rattle.inc_answers.specs.Writing.{Prints, unread_of, is_of_certificate};

use crate::asked::Question;
use crate::fault_reasons::{bad_file_line, bad_line};
use crate::missing_notes::Notes;
use crate::named_files::{NameFault, headers_at, sources_at};
use crate::near_names::unnamed_at;
use crate::outcome::{End, RunFault};
use crate::output::Output;
use crate::refusals::{Refusal, refuse_for};
use inc_graph::{Graph, GraphRefusal, Mark, Setting, Source};
use inc_lookup::{DirectiveId, FileId, Project, Sources};
use inc_text::ByteSink;
use std::alloc::{AllocError, Global};

/// Why a question has no graph.
#[derive(Clone, Copy)]
pub enum NoGraph {
    /// No file of the project has the path of the source at this place, the first such path.
    NoSource(usize),
    /// No file of the project has the path of the header at this place, the first such path.
    NoHeader(usize),
    /// The graph is refused.
    Refused(GraphRefusal),
}

impl From<AllocError> for NoGraph {
    ghost use Rattle.inc_graph.specs.declared.building.GraphRefusal.TheVariants.{NoMemory};
    ghost use Rattle.inc_answers.specs.declared.questions.NoGraph.TheVariants.{Refused};

    ghost from_gives = { λ _ e. e ≡ Refused NoMemory };

    fn from(_error: AllocError) -> NoGraph {
        NoGraph::Refused(GraphRefusal::NoMemory)
    }
}

/// The files between which a question asks.
#[derive(Drop)]
pub struct Ends {
    pub from: Vec<Source>,
    pub to: Vec<FileId>,
}

/// The graph of a question, or why it has none.
pub fn find_graph<S: Sources>(
    alloc: Global,
    project: &Project<'_>,
    sources: &mut S,
    question: &Question<'_>,
) -> Result<Graph, NoGraph>
    ensures graph { IfOk result (λ graph. (p : Printed) →
        HoldsOfGiven S.gives sources.old sources.new project.now
        (IsAnswerBy (λ layout g r. g ≡ graph) question.now p)) }
    ensures known { IfOk result (λ graph. IsKnown project.now graph) }
    ensures stopped { IfErr result (λ cause. (p : Printed) → IsStopped project.now question.now cause p →
        HoldsOfGiven S.gives sources.old sources.new project.now
        (IsAnswerBy (λ layout g r. ⊥) question.now p)) }
    ensures unread { IfErr result (λ cause. IfSome (unread_by cause)
        (FailsAt S.gives sources.old sources.new project.now question.now)) }
    ensures unnamed { IfErr result (IsFirstUnnamed project.now question.now) }
    ensures within { IfErr result (λ cause. IsWithin (length project.now.paths) cause) }
{
    match ends_of(alloc, project, question) {
        Ok(ends) => graph_of_ends(alloc, project, sources, &ends, question),
        Err(cause) => Err(cause),
    }
}

/// The same where the paths of the question name these files.
fn graph_of_ends<S: Sources>(
    alloc: Global,
    project: &Project<'_>,
    sources: &mut S,
    ends: &Ends,
    question: &Question<'_>,
) -> Result<Graph, NoGraph>
    requires from { sources_at project.now question.now ≡ Ok ends.now.from.items }
    requires to { headers_at project.now question.now.to ≡ Ok ends.now.to.items }
    requires ends { AreAsked (length project.now.paths) (suc (length question.now.others)) ends.now.from.items ends.now.to.items }
    ensures graph { IfOk result (λ graph. (p : Printed) →
        HoldsOfGiven S.gives sources.old sources.new project.now
        (IsAnswerBy (λ layout g r. g ≡ graph) question.now p)) }
    ensures known { IfOk result (λ graph. IsKnown project.now graph) }
    ensures stopped { IfErr result (λ cause. (p : Printed) → IsStopped project.now question.now cause p →
        HoldsOfGiven S.gives sources.old sources.new project.now
        (IsAnswerBy (λ layout g r. ⊥) question.now p)) }
    ensures unread { IfErr result (λ cause. IfSome (unread_by cause)
        (FailsAt S.gives sources.old sources.new project.now question.now)) }
    ensures unnamed { IfErr result (IsFirstUnnamed project.now question.now) }
    ensures within { IfErr result (λ cause. IsWithin (length project.now.paths) cause) }
{
    match graph_between(alloc, project, sources, ends, question) {
        Ok(graph) => {
            know(project, &graph);
            Ok(graph)
        }
        Err(fault) => Err(NoGraph::Refused(fault)),
    }
}

/// The files that the paths of a question name.
fn ends_of(alloc: Global, project: &Project<'_>, question: &Question<'_>) -> Result<Ends, NoGraph>
    ensures from { IfOk result (λ ends. sources_at project.now question.now ≡ Ok ends.from.items) }
    ensures to { IfOk result (λ ends. headers_at project.now question.now.to ≡ Ok ends.to.items) }
    ensures ends { IfOk result (λ ends.
        AreAsked (length project.now.paths) (suc (length question.now.others)) ends.from.items ends.to.items) }
    ensures cause { IfErr result (IsNoEnds project.now question.now) }
{
    let from = match sources_at(alloc, project, question) {
        Ok(files) => files,
        Err(NameFault::Unnamed(place)) => return Err(NoGraph::NoSource(place)),
        Err(NameFault::NoMemory) => return Err(NoGraph::Refused(GraphRefusal::NoMemory)),
    };
    match headers_at(alloc, project, question.to) {
        Ok(to) => Ok(Ends { from, to }),
        Err(NameFault::Unnamed(place)) => Err(NoGraph::NoHeader(place)),
        Err(NameFault::NoMemory) => Err(NoGraph::Refused(GraphRefusal::NoMemory)),
    }
}

/// What holds of every project and of every graph. The function does nothing: what it ensures is what holds.
fn know(project: &Project<'_>, graph: &Graph)
    ensures once { IsEachPathOnce project.now }
    ensures sound { IsSound graph.now }
{
    project.each_path_once();
    let _files = graph.files();
}

/// The graph between the files of a question.
fn graph_between<S: Sources>(
    alloc: Global,
    project: &Project<'_>,
    sources: &mut S,
    ends: &Ends,
    question: &Question<'_>,
) -> Result<Graph, GraphRefusal>
    requires { AreAsked (length project.now.paths) (suc (length question.now.others)) ends.now.from.items ends.now.to.items }
    ensures graph { IfOk result (λ graph.
        HoldsOfGiven S.gives sources.old sources.new project.now (λ given listing.
        IsGraphAnswer (setting_in project.now question.now) listing ends.now.from.items ends.now.to.items (Ok graph)
        × IsOfClosure (setting_in project.now question.now) ends.now.from.items ends.now.to.items given listing)) }
    ensures refusal { IfErr result (λ fault. IsOfFiles fault →
        HoldsOfGiven S.gives sources.old sources.new project.now (λ given listing.
        IsGraphAnswer (setting_in project.now question.now) listing ends.now.from.items ends.now.to.items (Err fault)
        × IsOfClosure (setting_in project.now question.now) ends.now.from.items ends.now.to.items given listing)) }
    ensures unread { IfErr result (λ fault. IfSome (read_fault_of fault) (λ r.
        FailsAfter S.gives sources.old sources.new project.now r.0 r.1
        (IsReachedAfter (setting_in project.now question.now) ends.now.from.items ends.now.to.items r.0))) }
    ensures within { IfErr result (λ fault. IsRefusalWithin (length project.now.paths) fault) }
{
    let removed = directives_named(alloc, project, question.without)?;
    let setting = Setting::new(
        alloc,
        project.seed(),
        question.language,
        &removed,
        question.undefined,
    )?
    .with_paths(question.others);
    Graph::build(alloc, project, sources, &ends.from, &ends.to, &setting)
}

/// The directives that marks name.
pub fn directives_named(
    alloc: Global,
    project: &Project<'_>,
    marks: &[Mark],
) -> Result<Vec<DirectiveId>, AllocError>
    ensures { IfOk result (λ ids. ids.items ≡ named_directives project.now marks.now) }
{
    let mut ids = Vec::new(alloc);
    for mark in marks {
        add_named(&mut ids, project, mark)?;
    }
    Ok(ids)
}

/// Adds the directive that a mark names, if it names one.
fn add_named(
    ids: &mut Vec<DirectiveId>,
    project: &Project<'_>,
    mark: &Mark,
) -> Result<(), AllocError>
    ensures { OnOk result (ids.new.items
        ≡ ids.old.items ++ named_directives project.now (mark.now ∷ [])) }
{
    if let Some(id) = directive_named(project, mark) {
        ids.push(id)?;
    }
    Ok(())
}

/// The directive that a mark names; `None` where no file of the project has its path.
fn directive_named(project: &Project<'_>, mark: &Mark) -> Option<DirectiveId>
    ensures { result ≡ named_directive project.now mark.now }
{
    let file = project.file(mark.path())?;
    Some(DirectiveId {
        file,
        line: mark.line(),
    })
}

/// Sends why a question has no graph.
pub fn refuse_question<W: ByteSink>(
    alloc: Global,
    project: &Project<'_>,
    question: &Question<'_>,
    cause: NoGraph,
    out: &mut Output<W>,
) -> Result<End, RunFault>
    requires { IsWithin (length project.now.paths) cause }
    ensures sent { Prints (IsStopped project.now question.now cause) out.old out.new result }
    ensures unread { IfErr result (λ f. IfSome (unread_of f) (λ r. unread_by cause ≡ Some r)) }
    ensures certificate { IfErr result (λ f. is_of_certificate f ≡ false) }
{
    let (refusal, reason) = refusal_of_question(alloc, project, question, cause)?;
    Ok(refuse_for(out, refusal, reason))
}

/// The refusal of a question that has no graph, and a reason beside it.
pub fn refusal_of_question<'a>(
    alloc: Global,
    project: &'a Project<'_>,
    question: &Question<'_>,
    cause: NoGraph,
) -> Result<(Refusal<'a>, Notes), RunFault>
    requires { IsWithin (length project.now.paths) cause }
    ensures refusal { IfOk result (λ r. IsStopped project.now question.now cause (refusal_for r.1 (seen_refusal r.0))) }
    ensures sink { IfErr result (λ f. f ≢ RunFault.Write) }
    ensures unread { IfErr result (λ f. IfSome (unread_of f) (λ r. unread_by cause ≡ Some r)) }
    ensures certificate { IfErr result (λ f. is_of_certificate f ≡ false) }
{
    match cause {
        NoGraph::NoSource(place) => {
            let reason = unnamed_at(alloc, project, b"source", question.from, place)?;
            Ok((Refusal::NoSuchSource, reason))
        }
        NoGraph::NoHeader(place) => {
            let headers = question.to.unwrap_or(&[]);
            let reason = unnamed_at(alloc, project, b"header", headers, place)?;
            Ok((Refusal::NoSuchHeader, reason))
        }
        NoGraph::Refused(fault) => refusal_of_graph(alloc, project, fault),
    }
}

/// The refusal that is in place of a graph, and a reason beside it.
fn refusal_of_graph<'a>(
    alloc: Global,
    project: &'a Project<'_>,
    fault: GraphRefusal,
) -> Result<(Refusal<'a>, Notes), RunFault>
    requires { IsRefusalWithin (length project.now.paths) fault }
    ensures refusal { IfOk result (λ r. IsRefusalOf project.now fault (refusal_for r.1 (seen_refusal r.0))) }
    ensures sink { IfErr result (λ f. f ≢ RunFault.Write) }
    ensures unread { IfErr result (λ f. IfSome (unread_of f) (λ r. read_fault_of fault ≡ Some r)) }
    ensures certificate { IfErr result (λ f. is_of_certificate f ≡ false) }
{
    match fault {
        GraphRefusal::BadFile { file, fault } => {
            let path = project.path(file);
            let reason = bad_file_line(alloc, path, fault)?;
            let line = bad_line(fault);
            Ok((Refusal::BadFile { path, line }, reason))
        }
        GraphRefusal::TooManyDirectives => Ok((Refusal::TooManyDirectives, Notes::none())),
        GraphRefusal::CannotRead { file } => Err(RunFault::CannotRead { file }),
        GraphRefusal::FileTooLong { file } => Err(RunFault::FileTooLong { file }),
        GraphRefusal::NoMemory => Err(RunFault::NoMemory),
    }
}
