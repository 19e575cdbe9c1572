//! The laws of relations, dependencies and revision: each the contract of a function with an empty
//! body.
#![tactic(auto)]

ghost use Rattle.fd_laws.specs.Laws.{ClosureIsLeast, ImpliesIsComplete, ImpliesIsRight, ImpliesIsSound, MergeMeets, OutputsAreImplied, RelationsAreSets, RevisionIsDistinct, RevisionKeeps, TreeFormIsTree, TreeFormSaysTheSame};

/// Relations with the same rows are one.
pub fn relations_are_sets()
    ensures { RelationsAreSets }
{}

/// A merge of two relations that meet a tree meets it, and revision loses no row.
pub fn revision_is_lawful()
    ensures meets { MergeMeets }
    ensures keeps { RevisionKeeps }
    ensures distinct { RevisionIsDistinct }
{}

/// The closure, and what it says of relations.
pub fn closures_are_right()
    ensures least { ClosureIsLeast }
    ensures sound { ImpliesIsSound }
    ensures complete { ImpliesIsComplete }
    ensures implies { ImpliesIsRight }
{}

/// The tree form of dependencies.
pub fn tree_forms_are_right()
    ensures tree { TreeFormIsTree }
    ensures same { TreeFormSaysTheSame }
    ensures outputs { OutputsAreImplied }
{}
