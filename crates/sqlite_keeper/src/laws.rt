//! What follows for a program that attaches no file.
ghost use Rattle.sqlite_keeper.specs.Turns.{KeepsInMemory};

/// The keeper stores in memory what was committed there. This is the last state of a server that
/// committed each of its changes.
pub fn memory_keeps_the_last_state()
    ensures { KeepsInMemory }
{}
