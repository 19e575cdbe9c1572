//! Tests of definitions, catalogues, arguments and replies, with values from outside.
#![tactic(auto)]

#[cfg(test)]
mod definitions;
#[cfg(test)]
mod rejections;
#[cfg(test)]
mod replies;
#[cfg(test)]
mod settings;
