//! What the words for files stand for.
ghost use Rattle.std.specs.Prelude.{◌≡◌};
ghost use Rattle.inc_inputs.specs.Ends.{option_of};

/// What the files are that a word stands for.
#[derive(Clone, Copy)]
pub(crate) enum Side {
    /// Sources, where chains begin.
    Source,
    /// Headers, where they end.
    Header,
    /// Files with directives that are taken as removed.
    Drop,
    /// Files with directives that may not be removed.
    Keep,
    /// Files in which alone directives may be removed.
    Only,
}

impl Side {
    /// The option whose words stand for it.
    pub fn option(self) -> &'static str
        ensures { result.now ≡ option_of self }
    {
        match self {
            Side::Source => "--from",
            Side::Header => "--to",
            Side::Drop => "--drop",
            Side::Keep => "--keep",
            Side::Only => "--only",
        }
    }
}
