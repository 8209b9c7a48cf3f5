//! What the words of the command line ask for.

/// What the words ask for.
#[derive(Drop)]
pub struct Arguments<'a> {
    /// The command with its arguments.
    pub request: Request<'a>,
    /// The language of the files.
    pub languages: LanguageArgs,
    /// Whether no notes stand beside the answer.
    pub is_quiet: bool,
    /// Whether links on the way to a file of the list are followed.
    pub follows: bool,
}

/// The language that the files are in: C17, where none is given. They exclude each other.
#[derive(Clone, Copy)]
pub struct LanguageArgs {
    /// The extended language.
    pub extended: bool,
    /// GNU C.
    pub gnu: bool,
}

/// A command with its arguments.
#[derive(Drop)]
pub enum Request<'a> {
    /// List the include directives of this file, of standard input where there is none, in the format of this name.
    Scan(Option<&'a str>, Option<&'a str>),
    /// Explain why a source includes a header.
    Why(QuestionArgs<'a>, FormatArgs<'a>),
    /// List the sources that reach a header, with their chains whole or without.
    Who(QuestionArgs<'a>, FormatArgs<'a>),
    /// List the edges that sources reach.
    Graph(QuestionArgs<'a>, FormatArgs<'a>),
    /// Tell which rules are broken.
    Rules(QuestionArgs<'a>, RuleArgs<'a>, FormatArgs<'a>),
    /// List the headers and directives that bring most, at most so many of each, or the tree of the source of the question.
    Cost(QuestionArgs<'a>, Option<&'a str>, FormatArgs<'a>),
    /// Find the fewest include directives to remove so that a source no longer includes a header.
    Cut(QuestionArgs<'a>, LimitArgs<'a>, FormArgs<'a>),
    /// Check this certificate of such a cut.
    Check(QuestionArgs<'a>, LimitArgs<'a>, &'a str),
    /// Preprocess sources.
    Pp(PpArgs<'a>),
}

/// The files of a project.
#[derive(Drop)]
pub struct FileList<'a> {
    /// The compilation database of the build, or the folder of one.
    pub build: Option<&'a str>,
    /// The command of a compiler that is the build, the name of the compiler first; no words where there is none.
    pub command: &'a [String],
    /// The file that lists them; `-` is standard input.
    pub list: Option<&'a str>,
    /// Whether NUL ends each path of the list, and not a line feed.
    pub is_null: bool,
    /// The folders below which they are found.
    pub roots: Vec<&'a str>,
    /// The globs of files that are left out.
    pub exclude: Vec<&'a str>,
    /// The directories of one's own headers, in the order in which they are searched.
    pub dirs: Vec<&'a str>,
    /// Those for names between `"` alone, which are searched before them.
    pub quoted: Vec<&'a str>,
    /// Those of the system's headers, which are searched after them.
    pub system: Vec<&'a str>,
    /// Those of the system's headers that are searched last.
    pub last: Vec<&'a str>,
}

/// The words of a question about sources and headers of a project: a path of each, or globs of both.
#[derive(Drop)]
pub struct QuestionArgs<'a> {
    /// The project.
    pub files: FileList<'a>,
    /// The path of the source, which need not be in normal form.
    pub source: Option<&'a str>,
    /// The path of the header, which need not be in normal form.
    pub header: Option<&'a str>,
    /// The globs and paths of sources.
    pub from: Vec<&'a str>,
    /// The globs and paths of headers.
    pub to: Vec<&'a str>,
    /// The file that lists directives to be taken as removed; `-` is standard input.
    pub without: Option<&'a str>,
    /// The places whose directives are taken as removed, too.
    pub drop: Vec<&'a str>,
    /// Whether a header that is not found is refused.
    pub is_strict: bool,
    /// The globs of the names of headers that are excepted.
    pub external: Vec<&'a str>,
    /// The names that no build defines.
    pub undefined: Vec<&'a str>,
}

/// The words of rules.
#[derive(Drop)]
pub struct RuleArgs<'a> {
    /// The file that has them; `-` is standard input.
    pub file: Option<&'a str>,
    /// Those that are words themselves.
    pub rules: Vec<&'a str>,
    /// The file that lists directives that may still break them; `-` is standard input.
    pub baseline: Option<&'a str>,
    /// The file that such a list is written to.
    pub written: Option<&'a str>,
}

/// The words of what limits a cut.
#[derive(Drop)]
pub struct LimitArgs<'a> {
    /// The file that lists directives that may not be removed; `-` is standard input.
    pub fixed: Option<&'a str>,
    /// The places whose directives may not be removed.
    pub keep: Vec<&'a str>,
    /// The files outside which no directive may be removed; none where all files are.
    pub only: Vec<&'a str>,
    /// The file that lists what it costs to remove directives; `-` is standard input.
    pub costs: Option<&'a str>,
}

/// What is asked for in place of a cut.
#[derive(Clone, Copy, Drop)]
pub struct FormArgs<'a> {
    /// The files that hold its directives, with these blanked.
    pub blank: bool,
    /// A diff that removes its directives.
    pub patch: bool,
    /// The format of its answer.
    pub format: FormatArgs<'a>,
}

/// The words of the format of an answer.
#[derive(Clone, Copy, Drop)]
pub struct FormatArgs<'a> {
    /// The name of the format, if one is given.
    pub name: Option<&'a str>,
    /// Whether each chain is shown whole.
    pub all: bool,
    /// Whether the answer is negative where a header is reached.
    pub fails: bool,
    /// How many chains and sources are printed at most, if that is given.
    pub most: Option<&'a str>,
}

/// The words of a preprocessing of sources of a project.
#[derive(Drop)]
pub struct PpArgs<'a> {
    /// The project.
    pub files: FileList<'a>,
    /// The paths of the sources, which need not be in normal form.
    pub sources: Vec<&'a str>,
    /// The file that lists directives to be taken as removed; `-` is standard input.
    pub without: Option<&'a str>,
    /// The file that lists definitions, which come before those of the words; `-` is standard input.
    pub defines: Option<&'a str>,
    /// The file that describes a compiler, by its macros and the directories of its system's headers; `-` is standard input.
    pub compiler: Option<&'a str>,
    /// Words that define macros, in order.
    pub words: Vec<&'a str>,
    /// Whether a header that is not found is taken as an empty file.
    pub is_missing_empty: bool,
    /// Whether markers say which lines the tokens are from.
    pub has_markers: bool,
    /// How many bytes are read for a source at most, if that is given.
    pub most_read: Option<&'a str>,
    /// How many bytes are printed of a source at most, if that is given.
    pub most_output: Option<&'a str>,
    /// The file that make rules of what is read are written to, where there is one.
    pub deps: Option<&'a str>,
    /// The file that is written with how each source ended, where there is one.
    pub status: Option<&'a str>,
}
