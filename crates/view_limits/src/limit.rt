//! The limits of a definition and of a server.

/// What a definition or a server may have only so many of.
#[derive(Clone, Copy, Debug, PartialEq, Eq)]
pub enum Limit {
    /// The columns of a table or a view.
    Columns,
    /// The nodes of a lens.
    Lens,
    /// The nodes of a predicate.
    Predicate,
    /// The parentheses and "not"s that are open at once.
    Nesting,
    /// The tables.
    Tables,
    /// The views.
    Views,
}

impl Limit {
    /// A sentence that says what is exceeded.
    pub fn sentence(self) -> &'static str {
        match self {
            Limit::Columns => "there are more than 64 columns",
            Limit::Lens => "the lens has more than 64 nodes",
            Limit::Predicate => "the predicate has more than 256 nodes",
            Limit::Nesting => "more than 32 parentheses and \"not\"s are open at once",
            Limit::Tables => "there are 64 tables already",
            Limit::Views => "there are 256 views already",
        }
    }
}
