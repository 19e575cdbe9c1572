//! How much is held in memory.
use signed_delta::Delta;
use table_keeper::{Change, Kept};

// The list of changes may always have so many rows, so that a small store is not folded at each
// change.
const LEAST: usize = 1024;

/// How many rows are kept, and how many changes and rows are in the list of changes. It says when the
/// list is folded, and nothing else.
#[derive(Clone, Copy)]
pub struct Size {
    rows: usize,
    listed: usize,
}

impl Size {
    /// The size of contents with no list.
    pub fn of(kept: &Kept) -> Size {
        let mut rows: usize = 0;
        for table in &kept.tables {
            rows = rows.saturating_add(table.rows.rows().len());
        }
        Size { rows, listed: 0 }
    }

    /// The size with one more change in the list.
    pub fn with(self, change: &Change) -> Size {
        let mut size = Size {
            rows: self.rows,
            listed: self.listed.saturating_add(1),
        };
        if let Change::Rows { deltas } = change {
            for change in deltas {
                size = size.with_delta(&change.delta);
            }
        }
        size
    }

    fn with_delta(self, delta: &Delta) -> Size {
        let removed = delta.remove().rows().len();
        let added = delta.add().rows().len();
        Size {
            rows: self.rows.saturating_sub(removed).saturating_add(added),
            listed: self.listed.saturating_add(removed).saturating_add(added),
        }
    }

    /// Whether the list has more than twice as many rows as are kept.
    pub fn is_long(self) -> bool {
        self.listed / 2 > self.rows.saturating_add(LEAST)
    }
}
