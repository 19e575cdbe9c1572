//! Tests of whole runs over sources, sinks and keepers in memory.
#![tactic(auto)]

#[cfg(test)]
mod devices;
#[cfg(test)]
mod keepers;
#[cfg(test)]
mod looks;
#[cfg(test)]
mod parts;
#[cfg(test)]
mod refused_changes;
#[cfg(test)]
mod runs;
#[cfg(test)]
mod scripts;
