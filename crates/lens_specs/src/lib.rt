//! What the product means: names, rows, relations, dependencies, predicates, sorts, lenses,
//! changes, lines, and what is stored, as definitions in `specs/`.
#![tactic(auto)]
