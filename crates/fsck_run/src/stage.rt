//! The stages of a check, in order.
ghost use Rattle.std.specs.Prelude.{◌≡◌};
ghost use Rattle.fsck_run.specs.Progress as progress;

/// The passes that are one batch each.
#[derive(Clone, Copy, Debug, PartialEq, Eq)]
pub(crate) enum Batched {
    Names,
    Rows,
    Objects,
    Losses,
    Counts,
}

/// What a check does next.
#[derive(Clone, Copy, Debug, PartialEq, Eq)]
pub(crate) enum Stage {
    /// The store is listed, and a clean file system is marked.
    Start,
    /// A pass is made.
    Batch(Batched),
    /// What is to go from the store is noted.
    Store,
    /// The keys of objects that no block has go.
    UnusedKeys,
    /// Their rows go.
    UnusedRows,
    /// The keys that no row has go.
    StrayKeys,
    /// The file system is marked as clean.
    Finish,
    /// Nothing is left.
    Over,
}

/// The stage behind a pass.
pub(crate) fn behind(pass: Batched) -> Stage
    ensures { result ≡ progress.behind pass }
{
    match pass {
        Batched::Names => Stage::Batch(Batched::Rows),
        Batched::Rows => Stage::Batch(Batched::Objects),
        Batched::Objects => Stage::Batch(Batched::Losses),
        Batched::Losses => Stage::Batch(Batched::Counts),
        Batched::Counts => Stage::Store,
    }
}
