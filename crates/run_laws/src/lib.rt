//! The law of a run, as one statement over what `run` promises.
#![tactic(auto)]

ghost use Rattle.run_laws.specs.RunLaws.{RunsAreLawful};

/// In every run that serves lines, each state is valid, and each line that is answered keeps the
/// laws of lenses:
///
/// - An accepted put, edit or import is then read as it was sent, reports exactly the differences
///   of the tables, and changes nothing if it sends what the view shows.
/// - The edits of an accepted batch are made one after another, and each of them keeps these laws.
/// - An undo takes back the last change.
/// - An import of what was exported changes nothing, if nothing else changed its view between.
/// - A find shows the rows of the view that have the value.
/// - An accepted change that is based on a version at which its view was read or exported finds the
///   view as it was then.
/// - A line that is rejected, or only asks, changes nothing.
///
/// If no count of faults rises and no reply says that memory ran out, the sink has taken exactly
/// the texts of the answers of the definition to the lines, in order.
pub fn runs_are_lawful()
    ensures { RunsAreLawful }
{}
