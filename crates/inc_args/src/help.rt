//! The texts of `--help` and `--version`.

/// What `--version` prints after the name. `rt run` compiles what it has proved. `tools/build-quick` checks no proof, and puts another
/// last line here; `tools/build-proved` stops where this one names another kit.
pub(crate) const VERSION: &str = "0.1.0
proofs: checked with rattle-kit-13f logic dac8208d650f15bf";

pub(crate) const ABOUT: &str = "Analyse the include directives of C sources";

pub(crate) const EXTENDED_HELP: &str =
    "Also accept the C23 directives #elifdef, #elifndef and #warning, and binary constants";

pub(crate) const GNU_HELP: &str = "Read the files as GNU C, as gcc does; not with --extended";

pub(crate) const TO_HELP: &str = "Look for the headers that GLOB fits (repeatable)";

pub(crate) const GROUP_HELP: &str = "Print what the headers that GLOB fits bring (repeatable)";

pub(crate) const SOURCES_HELP: &str =
    "Start from the files that GLOB fits (repeatable) [default: **.c]";

pub(crate) const UNDEFINED_HELP: &str = "Assume that no build defines the macro NAME (repeatable)";

pub(crate) const HEADER_HELP: &str =
    "Header to look for, by its path, its name in an include, or the end of its path";

pub(crate) const FORMAT_HELP: &str =
    "Print the answer as `text`, for scripts, as `gcc`, each directive at its file and line, as `json`, or as `dot`, for graphviz [default: gcc on a terminal, else text]";

pub(crate) const MAX_HELP: &str =
    "Print at most N chains and N sources, and how many more there are, in the formats text and gcc";

pub(crate) const COST_FORMAT_HELP: &str =
    "Print the answer as `text`, for scripts, as `gcc`, with words, as `json`, as `dot`, for graphviz, or the trees of the sources as `folded` stacks, for flame graphs [default: gcc on a terminal, else text]";

pub(crate) const RULE_FORMAT_HELP: &str =
    "Print the answer as `text`, for scripts, as `gcc`, each directive at its file and line, as `json`, as `dot`, for graphviz, or as `sarif`, for code hosts [default: gcc on a terminal, else text]";

pub(crate) const SCAN_FORMAT_HELP: &str =
    "Print the directives as `text`, for scripts, as `gcc`, each at its file and line, or as `json` [default: gcc on a terminal, else text]";

pub(crate) const ALL_HELP: &str = "With the format gcc, show every chain in full";

pub(crate) const EXAMPLES: &str = "Examples:
  incut < main.c
      List the include directives of standard input.
  incut why -p build src/main.c net/api.h
      Explain why src/main.c includes net/api.h, by build/compile_commands.json.
  incut why -I include src/main.c net/api.h
      The same, with the include path of the command line.
  incut who -I include net/api.h
      List the .c files that include net/api.h.
  incut graph -I include
      List all includes that the .c files reach.
  incut rules -I include -e 'src/*.c must not reach include/private/**'
      Check that no source of src includes a private header.
  incut cost -p build
      List the headers and includes that bring most into the sources of a build.
  incut cut -p build src/main.c net/api.h
      Find the fewest include directives to remove so that src/main.c no longer includes net/api.h.
  incut cut -I include --from 'src/*.c' --to 'include/private/*.h'
      Find the fewest to remove so that no source of src includes a private header.
  incut pp -I include -D NDEBUG src/*.c
      Preprocess the sources of src, and read each header once.

Exit status:
  0  answered
  1  negative answer
  2  usage error
  3  I/O error
  4  refused
  5  out of memory

See `incut help COMMAND` for the options of a command, and incut(1) for the full description.";

pub(crate) const SCAN_NOTES: &str = "Examples:
  incut scan src/main.c
  incut scan --format json < src/main.c

With --format text, each line after the first is the line number of a directive, then one of:
  quoted NAME   #include \"NAME\"
  angled NAME   #include <NAME>
  computed      #include whose name is made by macros
  nothing       #include without a name
  foreign       #include_next, #import or #embed
Directives inside #if groups are always listed.

See incut(1) for the full description.";

pub(crate) const WHY_NOTES: &str = "Examples:
  incut why -p build src/main.c net/api.h
  incut why -I include src/main.c net/api.h
  incut why src/main.c net/api.h -- gcc -Iinclude -c src/main.c
  incut why -p build --from 'src/**/*.c' --to 'net/*.h'

With --format text the answer has four parts, and a directive is its line and its file:
  shortest  a shortest chain of includes from SOURCE to HEADER
  chains    for each directive that includes HEADER, a shortest chain that ends with it
  missing   includes of headers that are not found: what they would include is not seen
  blocked   includes that cannot be resolved, such as those whose names are made by macros

See incut(1) for the full description.";

pub(crate) const WHO_NOTES: &str = "Examples:
  incut who -p build net/api.h
  incut who -I include --chains net/api.h
  incut who -p build --from 'src/net/*.c' --to 'include/private/*.h'

With --format text the answer has four parts, and a directive is its line and its file:
  who      the sources that include HEADER, each after the length of a shortest chain
  chains   for each directive that includes HEADER, a shortest chain that ends with it
  missing  includes of headers that are not found: what they would include is not seen
  blocked  includes that cannot be resolved, such as those whose names are made by macros

See incut(1) for the full description.";

pub(crate) const GRAPH_NOTES: &str = "Examples:
  incut graph -p build
  incut graph -I include --from 'src/net/*.c'
  incut graph -p build --format dot | dot -Tsvg > includes.svg

With --format text the answer has three parts, and a directive is its line and its file:
  edges    each include that the sources reach, and below it the file that it includes
  missing  includes of headers that are not found: what they would include is not seen
  blocked  includes that cannot be resolved, such as those whose names are made by macros

See incut(1) for the full description.";

pub(crate) const RULES_NOTES: &str = "Examples:
  incut rules -p build .incut-rules
  incut rules -p build --write-baseline baseline.txt .incut-rules
  incut rules -I include -e 'src/*.c must not reach include/private/**'

RULES has one rule a line; a word that begins with # begins a comment:
  lib/public/**  must not reach    lib/private/**
  mm/*.c         must not reach    include/net/**   except mm/memcontrol.c
  src/ui/**      must not include  src/db/**
  src/*.c        must include      src/config.h     first
The exit status is 1 where a rule is broken.

See incut(1) for the full description.";

pub(crate) const COST_NOTES: &str = "Examples:
  incut cost -p build
  incut cost -p build --to 'include/ssl/**'
  incut cost -p build --of src/net.c
  incut cost -p build --format folded | flamegraph.pl > includes.svg

With --format text the first line has the bytes of all files that the sources reach, each source
counted by itself, and how many sources there are. After it come:
  headers     bytes that come in through a header alone, in how many sources, and its path
  groups      bytes that go without the headers of --to, in how many sources, by how few includes
  directives  bytes that go without this include alone, in how many sources, its line and its file

See incut(1) for the full description.";

pub(crate) const CUT_NOTES: &str = "Examples:
  incut cut -p build src/main.c net/api.h
  incut cut -p build --to 'net/*.h' --only 'src/**' --keep src/main.c:3
  incut cut -p build --patch src/main.c net/api.h | git apply

With --format text the answer is one of these, and a directive is its line and its file:
  cut      the directives to remove, and chains of includes which show that fewer do not suffice
  fixed    a chain from SOURCE to HEADER of directives that may not be removed
  refused  why there is no answer; standard error may say how to go on

See incut(1) for the full description.";

pub(crate) const CHECK_NOTES: &str = "Examples:
  incut cut -p build src/main.c net/api.h > cut.txt
  incut check -p build cut.txt src/main.c net/api.h

Give the options that `incut cut` had. The answer is `yes`, or `no` and the first reason:
  1 not editable   a directive of the cut does not stand there or is fixed
  2 repeated       a directive stands twice in the cut
  3 still reached  some chain of includes has no directive of the cut
  4 not a chain    a chain of CERT is none from SOURCE to HEADER
  5 shared         more chains go through a directive than it costs
  6 counts         there are not as many chains as the cut costs

See incut(1) for the full description.";

pub(crate) const PP_NOTES: &str = "Examples:
  incut pp -p build --missing-empty src/main.c
  incut pp -I include -D NDEBUG src/*.c
  share/describe-compiler gcc > gcc.txt
  incut pp --gnu --compiler gcc.txt --root . --root /usr/include --root /usr/lib/gcc src/main.c

Headers outside of the project, those of the system too, are found where --root takes them in.
Of several sources, each is printed below a line `source PATH`.
Where a source stops, its last line is `stop C.F LINE PATH`, and standard error says why.

See incut(1) for the full description.";
