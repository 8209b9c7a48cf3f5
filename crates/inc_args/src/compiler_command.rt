//! The command of a compiler after the first `--` of a command about a project.
ghost use Rattle.std.specs.Prelude.{◌≡◌, ◌≤◌, bytes_eq, drop, length, map, not};
ghost use Rattle.std.specs.List.{list_any, prefix_len};
ghost use Rattle.std.specs.String.{string_bytes};
ghost use Rattle.inc_args.specs.CompilerCommand as spec;

/// The words that this program reads, its name first, and those of a compiler.
pub(crate) fn split<'a>(words: &'a [String]) -> (&'a [String], &'a [String])
    ensures own { map string_bytes result.0.now ≡ spec.own_words (map string_bytes words.entry.now) }
    ensures compiler { map string_bytes result.1.now ≡ spec.compiler_words (map string_bytes words.entry.now) }
{
    let (own, rest) = words.split_at(own_count(words));
    (own, after_first(rest))
}

/// How many words stand before the `--` of a compiler's command.
fn own_count(words: &[String]) -> usize
    ensures count { result ≡ spec.own_count (map string_bytes words.now) }
    ensures within { result ≤ length words.now }
{
    let rest = after_first(words);
    if has_project(rest) {
        1 + before_dashes(rest)
    } else {
        words.len()
    }
}

/// Whether the words after the program's name have a command about a project.
fn has_project(words: &[String]) -> bool
    ensures { result ≡ spec.has_project (map string_bytes words.now) }
{
    let mut left = words;
    while let [word, rest @ ..] = left {
        let word = word.as_str();
        if word == "--" {
            return false;
        }
        if !word.starts_with("-") {
            return is_project_command(word);
        }
        left = rest;
    }
    false
}

/// Whether a command is about a project.
fn is_project_command(name: &str) -> bool
    ensures { result ≡ list_any (λ other. bytes_eq name.now other) spec.project_commands }
{
    name == "why"
        || name == "who"
        || name == "graph"
        || name == "rules"
        || name == "cost"
        || name == "cut"
        || name == "check"
        || name == "pp"
}

/// How many words stand before the first `--`.
fn before_dashes(words: &[String]) -> usize
    ensures count { result ≡ prefix_len (λ word. not (spec.is_dashes word)) (map string_bytes words.now) }
    ensures within { result ≤ length words.now }
{
    let mut count = 0;
    let mut left = words;
    while let [word, rest @ ..] = left {
        if word.as_str() == "--" {
            return count;
        }
        count += 1;
        left = rest;
    }
    count
}

/// The words after the first.
fn after_first<'a>(words: &'a [String]) -> &'a [String]
    ensures { result.now ≡ drop 1 words.entry.now }
{
    match words {
        [_, rest @ ..] => rest,
        [] => words,
    }
}
