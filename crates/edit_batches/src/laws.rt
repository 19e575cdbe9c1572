//! Laws of differences of tables.
ghost use Rattle.edit_batches.specs.Laws.{ComposedLeads, DifferencesAreAlone};

/// Where one difference leads from the first tables to others, and a second one from those on, what
/// is composed of both leads there from the first ones.
pub fn composed_leads()
    ensures { ComposedLeads }
{}

/// A difference by rising names, with no empty one, is the only one between its tables.
pub fn differences_are_alone()
    ensures { DifferencesAreAlone }
{}
