//! The kinds of boundaries.

/// What a boundary shows.
#[derive(Clone, Copy, Debug, PartialEq, Eq, Drop)]
pub enum BoundaryStatus {
    /// `$`: its content.
    Complete,
    /// `$?`: its fallback, until the content comes.
    Pending,
    /// `$!`: its fallback, since the content failed.
    Client,
}
