//! What holds of every path and every project. The functions do nothing: what they ensure is what holds.
ghost use Rattle.std.specs.Prelude.{◌≡◌, ◌++◌, ℕ, List, [], Some, Ok, IsTrue, codes, if◌then◌else◌, map};
ghost use Rattle.std.specs.List.{list_all, join_with_byte};
ghost use Rattle.inc_lookup.specs.Paths.{is_absolute, normal_form};
ghost use Rattle.inc_lookup.specs.Projects.{File, Layout, Listing, directory_of, found_file, project_of, search_of};
ghost use Rattle.inc_lookup.specs.Given.{Given, Gave, Agrees};
ghost use Rattle.inc_lookup.specs.Held.{held_gives};
ghost use Rattle.inc_lookup.specs.PathParts.{is_kept};
ghost use Rattle.inc_lookup.specs.Views.{seen_file};
ghost use Rattle.inc_lookup.specs.declared.sources.HeldFiles.{HeldFiles};
ghost use Rattle.inc_lookup.specs.declared.projects.Form.{Form};
ghost use Rattle.inc_lookup.specs.declared.projects.Form.TheVariants.{Angled};
ghost use Rattle.inc_text.specs.Ascii.{slash};

/// A normal form is its own normal form.
pub fn normal_forms_are_their_own()
    ensures { (path form : List ℕ) → normal_form path ≡ Some form → normal_form form ≡ Some form }
{}

/// A normal form is a leading `/`, where the path has one, and names with `/` between them: no name is empty, `.` or `..`.
pub fn normal_forms_are_names()
    ensures { (path form : List ℕ) → normal_form path ≡ Some form → (names : List (List ℕ))
        × (form ≡ (if is_absolute path then codes "/" else []) ++ join_with_byte slash names)
        × IsTrue (list_all is_kept names) }
{}

/// The paths of a project are the normal forms of those that it is made of, in order, none dropped and none added; its directories
/// are the normal forms of those that it is made of, each once among those for names between `"` alone and once among the others, where it
/// comes first.
pub fn projects_keep_their_paths()
    ensures { (paths : List (List ℕ)) (quoted : ℕ) (dirs : List (List ℕ)) (layout : Layout) →
        project_of paths quoted dirs ≡ Ok layout →
        (map normal_form paths ≡ map (λ path. Some path) layout.paths)
        × ((forms : List (List ℕ)) × (map normal_form dirs ≡ map (λ dir. Some dir) forms)
        × (layout.search ≡ search_of quoted forms)) }
{}

/// What a header name finds depends on the directory of the file that includes it, on the form, the name, the paths of the files
/// and the search directories alone.
pub fn search_goes_by_the_directory()
    ensures { (layout : Layout) (p q : List ℕ) (form : Form) (name : List ℕ) →
        directory_of p ≡ directory_of q →
        found_file layout p form name ≡ found_file layout q form name }
{}

/// A name between `<` and `>` finds the same from every file.
pub fn angled_names_go_by_the_search_directories()
    ensures { (layout : Layout) (p q name : List ℕ) →
        found_file layout p Angled name ≡ found_file layout q Angled name }
{}

/// What readings of held files give agrees with every listing whose files have those bytes, and the files stay as they are.
pub fn held_files_agree()
    ensures { (old new : HeldFiles) (given : List Given) (listing : Listing) →
        Gave held_gives old given new →
        map (λ (f : File). f.bytes) listing.files
        ≡ map (λ (f : File). f.bytes) (map seen_file old.files.now) →
        (new ≡ old) × Agrees given listing }
{}
