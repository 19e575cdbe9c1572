//! A source of a join.
use fd_tree::Tree;
use signed_delta::Look;

/// A source of a join, with the tree of its dependencies.
#[derive(Drop)]
pub struct Source<'a, K: Look> {
    /// The relation, which answers questions.
    pub look: &'a K,
    /// The tree of its dependencies.
    pub tree: &'a Tree,
}
