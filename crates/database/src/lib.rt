//! The database of a server: its definitions, tables, versions and history, and how a planned change of it is made.
#![tactic(auto)]

mod commit;
mod database;
mod plan;
mod plans;

pub use commit::{settle, stage_definition};
pub use database::Database;
pub use plan::{PastStep, Plan, Staged, StagedChange};
pub use plans::{plan_changes, plan_tables};
