//! The laws of a cutter over whole runs: each the contract of a function with an empty body.
ghost use Rattle.lens_io.specs.Laws.{EndIsAll, EndIsKnown, EndOrFailed, FailedIsWhole, GivenAreFirst, LineIsGiven, LineUsesBytes, NoneIsGiven, RunIsTaken, SpentIsWhole, TooLongFailedOrSpent, TooLongIsGiven};

/// What a whole run has given are lines of the bytes that it has taken.
pub fn runs_give_lines()
    ensures { RunIsTaken }
{}

/// Each call that answers `Line` or `TooLong` gives one line more of the bytes taken, from none
/// before the first call.
pub fn lines_are_given_one_by_one()
    ensures none { NoneIsGiven }
    ensures line { LineIsGiven }
    ensures too_long { TooLongIsGiven }
{}

/// The lines given are the first lines of the bytes taken.
pub fn given_lines_are_first()
    ensures { GivenAreFirst }
{}

/// At `End` they are the lines of all bytes, and the source is at its end.
pub fn end_gives_all_lines()
    ensures taken { EndIsAll }
    ensures known { EndIsKnown }
{}

/// At `Failed` they are the whole lines of the bytes taken, and at `Spent` those of the bytes up to
/// the limit.
pub fn stops_give_whole_lines()
    ensures failed { FailedIsWhole }
    ensures spent { SpentIsWhole }
{}

/// At the end of the input, and at a line that is too long, no other answers come.
pub fn answers_have_causes()
    ensures end { EndOrFailed }
    ensures too_long { TooLongFailedOrSpent }
{}

/// Each answer with a line uses up a byte, so a run comes to its end.
pub fn runs_end()
    ensures { LineUsesBytes }
{}
