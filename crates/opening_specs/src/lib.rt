//! What a store opens to: the state that it holds, or its first damage, as definitions in `specs/`.
#![tactic(auto)]
