//! What holds of the tree and the directives of every file. The functions do nothing: what they ensure is what holds.
ghost use Rattle.std.specs.Prelude.{◌≡◌, ◌≤◌, ℕ, suc, true, IfOk, List, Some, Ok, drop, map, slice_get};
ghost use Rattle.std.specs.List.{All};
ghost use Rattle.std.specs.List.Sorted.{IsStrictlyIncreasing};
ghost use Rattle.std.specs.Option.{option_map_or};
ghost use Rattle.inc_text.specs.PhaseText.{phase_text};
ghost use Rattle.inc_token.specs.Prefixes.{prefix_of};
ghost use Rattle.inc_token.specs.TokenLines.{Tok, TokenLine};
ghost use Rattle.inc_text.specs.declared.languages.Language.{Language};
ghost use Rattle.inc_directive.specs.FileDirectives.{Directive, file_directives};
ghost use Rattle.inc_directive.specs.Groups.{FileLine, Group, Link, role, file_lines, file_links, group_at, group_tree, lines_of, links};
ghost use Rattle.inc_directive.specs.Jumps.{LeadsOn, Closes};
ghost use Rattle.inc_directive.specs.LineKinds.{Text, line_kind, prefix_kind};
ghost use Rattle.inc_directive.specs.WellFormed.{IsWellFormed};
ghost use Rattle.inc_directive.specs.TreeLaws.{is_opening, opening_places};
ghost use Rattle.inc_directive.specs.declared.kinds.Role.TheVariants.{IfGroup};

/// The lines of a tree are the lines of its file, in order.
pub fn trees_keep_their_lines()
    ensures { (lines : List FileLine) (tree : Group) → group_tree lines ≡ Ok tree →
        lines_of tree ≡ lines }
{}

/// The links of a tree are those of the lines of its file that open a section or a branch: one for each, in order.
pub fn links_are_those_of_opening_lines()
    ensures { (lines : List FileLine) (tree : Group) → group_tree lines ≡ Ok tree →
        map (λ (k : Link). k.from) (links tree) ≡ opening_places lines }
{}

/// The tree of a file has the shape of the grammar (ISO/IEC 9899:2018, 6.10 paragraph 1).
pub fn trees_are_well_formed()
    ensures { (lines : List FileLine) (tree : Group) → group_tree lines ≡ Ok tree →
        IsWellFormed tree }
{}

/// Lines have one tree at most of that shape, which is the tree of their file.
pub fn lines_have_one_well_formed_tree()
    ensures tree { (lines : List FileLine) (tree : Group) → IsWellFormed tree →
        lines_of tree ≡ lines → group_tree lines ≡ Ok tree }
    ensures one { (s t : Group) → IsWellFormed s → IsWellFormed t → lines_of s ≡ lines_of t →
        s ≡ t }
{}

/// The kind of a line rests on the prefix of its directive; a line without one is text.
pub fn prefixes_give_the_kinds()
    ensures { (language : Language) (tokens : List Tok) →
        option_map_or (prefix_kind language) (prefix_of language tokens) Text ≡ line_kind language tokens }
{}

/// The directives of a file are on line 1 or later ones, and each on a later line than the one before it.
pub fn directives_ascend()
    ensures lines { (language : Language) (bytes : List ℕ) →
        IfOk (file_directives language (phase_text language bytes))
        (All (λ (d : Directive). 1 ≤ d.line)) }
    ensures order { (language : Language) (bytes : List ℕ) →
        IfOk (file_directives language (phase_text language bytes))
        (λ found. IsStrictlyIncreasing (map (λ (d : Directive). d.line) found)) }
{}

/// Each line of a file that opens a section or a branch has a link, which leads to what ends its group, and to what ends its section.
pub fn links_lead_on()
    ensures { (language : Language) (ls : List TokenLine) (list : List Link) →
        file_links language ls ≡ Ok list → (i : ℕ) (l : FileLine) →
        slice_get (file_lines language ls) i ≡ Some l → is_opening (role l.kind) ≡ true →
        LeadsOn (file_lines language ls) list i }
{}

/// Each line that opens a section in lines with a tree opens one that closes.
pub fn sections_close()
    ensures { (lines : List FileLine) (tree : Group) → group_tree lines ≡ Ok tree →
        (i : ℕ) (l : FileLine) → slice_get lines i ≡ Some l → role l.kind ≡ IfGroup →
        Closes l (group_at (drop (suc i) lines)) }
{}
