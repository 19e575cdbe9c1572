//! The limits on a sort and on a lens.
ghost use Rattle.std.specs.Prelude.{◌≡◌, List, option_map};
ghost use Rattle.lens_specs.specs.Dependencies.{Edge};
ghost use Rattle.lens_specs.specs.Refusal.{too_much};
ghost use Rattle.lens_types.specs.Faults.{fault_view};
ghost use Rattle.lens_types.specs.Sorts.{sort_from};

use crate::fault::TypeFault;
use lens_pred::Pred;
use lens_values::Columns;
use view_limits::Limit;

/// The greatest number of columns.
pub const MAX_COLUMNS: usize = 64;

/// The greatest number of nodes of a lens.
pub const MAX_LENS: usize = 64;

/// The greatest number of nodes of a predicate.
pub const MAX_PREDICATE: usize = 256;

/// The first limit that is exceeded: of the columns, of the nodes of the lens, or of the predicate.
pub fn size_fault(nodes: usize, cols: &Columns, pred: &Pred) -> Option<TypeFault>
    ensures { (tree : List Edge)
        → option_map fault_view result ≡ too_much nodes (sort_from cols.now pred.now tree) }
{
    let what = if cols.pairs().len() > MAX_COLUMNS {
        Limit::Columns
    } else if nodes > MAX_LENS {
        Limit::Lens
    } else if pred.nodes() > MAX_PREDICATE {
        Limit::Predicate
    } else {
        return None;
    };
    Some(TypeFault::TooLarge { what })
}
