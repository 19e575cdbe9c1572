//! Rows as keys of a tree, by what they have in some columns.
ghost use Rattle.std.specs.Prelude.{◌≡◌, IfOk, refl};
ghost use Rattle.std.specs.Cmp.{eq_by_cmp_equiv, partial_equiv_from_equiv, partial_order_from_agreeing_total};
ghost use Rattle.std.specs.Ordering.{as_partial_cmp, eq_by_cmp};
ghost use Rattle.key_index.specs.Key.{hash_key, key_cmp, key_of};
ghost use Rattle.key_index.specs.KeyOrder.{key_cmp_total};

use crate::cells::{cells_cmp, hash_cells};
use lens_values::{Names, NoMemory, Row};
use std::alloc::Global;
use std::cmp::Ordering;
use std::marker::Model;

/// What a row has in the columns of an index, in the order of the hashes. The row itself is held, and
/// compared in place. A contract sees a key as the list of what the row has in each column.
#[derive(Drop)]
pub struct Key {
    hash: u64,
    row: Row,
    cols: Names,
}

impl Model for Key {
    ghost use Rattle.std.specs.Prelude.{◌≡◌, List, Option};
    ghost use Rattle.std.specs.Coded.{coded_list, coded_option};
    ghost use Rattle.plain_values.specs.contracts.value.Value as contract;
    ghost use Rattle.plain_values.specs.declared.value.Value as declared;
    ghost use Rattle.key_index.specs.Key.{hash_key, key_of};

    ghost Value = { List (Option declared.Value) };

    ghost coded = { coded_list (coded_option contract.the_row.coded) };

    ghost view = { λ k. key_of k.cols k.row };

    ghost invariant = { λ k. k.hash ≡ hash_key (key_of k.cols k.row) };
}

impl Key {
    /// The key of the row in these columns. The row may have others too.
    pub fn of(row: Row, cols: Names) -> Key
        ensures { result ≡ key_of cols row }
    {
        Key {
            hash: hash_cells(&row, &cols),
            row,
            cols,
        }
    }

    /// The hash of its values.
    pub fn hash(&self) -> u64
        ensures { result ≡ hash_key self.now }
    {
        self.hash
    }

    /// An equal key.
    pub fn copy(&self, alloc: Global) -> Result<Key, NoMemory>
        ensures { IfOk result (λ copy. copy ≡ self.now) }
    {
        Ok(Key {
            hash: self.hash,
            row: self.row.copy(alloc)?,
            cols: self.cols.copy(alloc)?,
        })
    }
}

impl PartialEq for Key {
    ghost eq = { eq_by_cmp key_cmp };

    ghost laws = { partial_equiv_from_equiv (eq_by_cmp_equiv key_cmp_total) };

    fn eq(&self, other: &Key) -> bool {
        self.cmp(other) == Ordering::Equal
    }
}

impl Eq for Key {
    ghost laws = { eq_by_cmp_equiv key_cmp_total };
}

impl PartialOrd for Key {
    ghost partial_cmp = { as_partial_cmp key_cmp };

    ghost laws = { partial_order_from_agreeing_total key_cmp key_cmp_total (λ _ _. refl) (λ _ _. refl) };

    fn partial_cmp(&self, other: &Key) -> Option<Ordering> {
        Some(self.cmp(other))
    }
}

impl Ord for Key {
    ghost cmp = { key_cmp };

    ghost total = { key_cmp_total };

    ghost matches_partial_cmp = { λ _ _. refl };

    ghost matches_eq = { λ _ _. refl };

    fn cmp(&self, other: &Key) -> Ordering {
        match self.hash.cmp(&other.hash) {
            Ordering::Equal => cells_cmp(&self.row, &self.cols, &other.row, &other.cols),
            order => order,
        }
    }
}
