//! Reading by the grammar as a function, and its laws: each the contract of a function with an
//! empty body.
#![tactic(auto)]

ghost use Rattle.grammar_laws.specs.Laws.{AnswersAreRead, ReadingAnswers};
ghost use Rattle.grammar_laws.specs.PrintLaws.{PrintedIsRead, PrintedIsSaid, SaidIsWritable};

/// Reading a text, token by token, gives the answer that the grammar has for it, and a text has no
/// other.
pub fn reading_is_the_grammar()
    ensures answers { ReadingAnswers }
    ensures only { AnswersAreRead }
{}

/// A text says only definitions that can be written, and each of these is printed as a text that
/// says it and is read as it.
pub fn printing_is_read()
    ensures writable { SaidIsWritable }
    ensures said { PrintedIsSaid }
    ensures read { PrintedIsRead }
{}
