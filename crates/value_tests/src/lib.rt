//! Tests of the crates of values, rows, differences, dependencies and predicates, with values from
//! outside.
#![tactic(auto)]

#[cfg(test)]
mod batches;
#[cfg(test)]
mod dependencies;
#[cfg(test)]
mod predicates;
#[cfg(test)]
mod relations;
#[cfg(test)]
mod revisions;
#[cfg(test)]
mod samples;
#[cfg(test)]
mod values;
