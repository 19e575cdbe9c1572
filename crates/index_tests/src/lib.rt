//! Tests of the tables by key: what is seen of a change before and after it is settled, what is
//! taken back, and keys that collide.
#![tactic(auto)]

#[cfg(test)]
mod cases;
#[cfg(test)]
mod trial;
