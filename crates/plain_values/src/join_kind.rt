//! On which side a join deletes.

/// On which side a put of a join deletes the rows that it must not join.
#[derive(Clone, Copy, PartialEq, Eq)]
pub enum JoinKind {
    /// On the left one.
    DeleteLeft,
    /// On the right one, where it can lose the row, and else on the left one.
    DeleteRight,
    /// On both: on the left one, and on the right one where it can lose the row.
    DeleteBoth,
}
