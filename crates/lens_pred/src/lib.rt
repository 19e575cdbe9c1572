//! Predicates on rows: which rows meet them, what they mention, how large they are, and how they
//! are split.
#![tactic(auto)]

pub mod checking;
pub mod copying;
pub mod formula;
pub mod holding;
pub mod mentioning;
pub mod naming;
pub mod nodes;
pub mod normal_form;
pub mod op;
pub mod pred;
pub mod renaming;
pub mod splitting;

pub use checking::PredFault;
pub use formula::{Formula, Formulas, Values};
pub use op::Op;
pub use pred::{NotNormal, Pred};
pub use splitting::SplitFault;
