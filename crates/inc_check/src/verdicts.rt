//! What a checker answers.

/// Why a certificate does not show that its cut is a cheapest one.
#[derive(Clone, Copy, Debug, PartialEq, Eq)]
pub enum Reason {
    /// A mark of the cut names no edge of the graph, or a fixed one.
    NotEditable,
    /// A mark is in the cut twice.
    Repeated,
    /// A chain of the graph has no edge of the cut.
    StillReached,
    /// A chain of the certificate is no chain of the graph, or counts 0.
    NotAChain,
    /// The counts of the chains through an editable edge are more than its cost.
    Shared,
    /// The counts of all chains are not the cost of the cut.
    Counts,
}

/// Whether a certificate shows that its cut is a cheapest one.
#[derive(Clone, Copy, Debug, PartialEq, Eq)]
pub enum Verdict {
    /// It does.
    Yes,
    /// It does not: the first reason that holds, in the order of [`Reason`].
    No(Reason),
}
