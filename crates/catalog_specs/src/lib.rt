//! The catalogue of definitions: the lens that each name has, and which definition the catalogue
//! accepts, as definitions in `specs/`.
#![tactic(auto)]
