//! What holds of every build. The functions do nothing: what they ensure is what holds.
ghost use Rattle.std.specs.Prelude.{◌≡◌, ℕ, List, Some, slice_get};
ghost use Rattle.inc_build.specs.Builds.{build, text_of};
ghost use Rattle.inc_build.specs.Configurations.{Row};
ghost use Rattle.inc_build.specs.Entries.{Entry};
ghost use Rattle.inc_build.specs.Uses.{Compiles, rows_of, source_of};

/// Include paths of one text are the same.
pub fn texts_tell_apart()
    ensures { (c d : List Row) → text_of c ≡ text_of d → c ≡ d }
{}

/// Each entry of a database compiles its source with its include path by the build of the database.
pub fn entries_are_in_their_build()
    ensures { (base : List ℕ) (es : List Entry) (i : ℕ) (e : Entry) → slice_get es i ≡ Some e →
        Compiles (build base es) i (source_of base e) (rows_of base e) }
{}

/// Nothing else is in it.
pub fn entries_alone_are_in_their_build()
    ensures { (base : List ℕ) (es : List Entry) (i : ℕ) (path : List ℕ) (rows : List Row) → Compiles (build base es) i path rows →
        (e : Entry) × (slice_get es i ≡ Some e) × (path ≡ source_of base e) × (rows ≡ rows_of base e) }
{}

/// No source is there twice.
pub fn sources_are_told_apart()
    ensures { (base : List ℕ) (es : List Entry) (i j : ℕ) (path : List ℕ) →
        slice_get (build base es).sources i ≡ Some path → slice_get (build base es).sources j ≡ Some path → i ≡ j }
{}

/// No include path is there twice: entries of one include path share it.
pub fn configurations_are_shared()
    ensures { (base : List ℕ) (es : List Entry) (i j : ℕ) (rows : List Row) →
        slice_get (build base es).configurations i ≡ Some rows → slice_get (build base es).configurations j ≡ Some rows → i ≡ j }
{}
