//! The laws of the server: what every state, every answer and every session keeps, each the
//! contract of a function with an empty body.
#![tactic(auto)]

ghost use Rattle.server_laws.specs.AnswerLaws.{AnswersDoNotFail, ChangesRaiseVersions, LastFollows, OthersStay, QuestionsChangeNothing, RefusalsChangeNothing, VersionsAreTold};
ghost use Rattle.server_laws.specs.BatchLaws.{BatchesAcceptedOrRefused, BatchesAreMade, BatchesLead, EditsAreLawful, FirstRefusedIsTold, NoEditsChangeNothing, NothingMadeChangesNothing, OneEditIsAnEdit};
ghost use Rattle.server_laws.specs.ChangeLaws.{BadRowsAreTold, LastChangeIsGreatest, LinesAcceptedOrRefused, LinesAcceptedWhereTyped, LinesLeaveOthers, LinesMakeDifferences, LinesPutSets, LinesReadViews, LinesRefusedByFirstClash, LinesRefusedByLeastRow, LinesSettle, LinesTellChanges, NextLineReads, NothingIsChanged, PresentIsNotStale, PreviewsForetell, RemovedComeFirst, SentViewsFit, StaleIsTold, UnknownNamesAreTold};
ghost use Rattle.server_laws.specs.DefineLaws.{DefinitionsLeaveTables, DefinitionsLeaveViews, FaultsAreTold, LensesStay, NamesAreTakenOnce, NewTablesAreEmpty, NewViewsShow, RefusedStays, TakenIsAdded, TakenIsRead, TakenWhereJudged};
ghost use Rattle.server_laws.specs.FindLaws.{FindsAreFilters, FindsKnowTheirColumn, FindsKnowTheirView, FoundValuesFit};
ghost use Rattle.server_laws.specs.KeptLaws.{ChangesAreKept, DefinitionsAreKept, PutsAreKept};
ghost use Rattle.server_laws.specs.PutLaws.{AcceptedOrRefused, AcceptedWhereTyped, ChangesAreDifferences, ChangesAreTold, OtherTablesStay, PutThenRead, ReadThenPut, RefusedByFirstClash, RefusedByLeastRow, SentRowsFit};
ghost use Rattle.server_laws.specs.SessionLaws.{AnswersReadOtherwise, CountsStay, FaultsAreCounted, RepliesAreAnswers, SessionsAreComplete};
ghost use Rattle.server_laws.specs.SheetLaws.{BadRecordsAreTold, ExportsAreSheets, ExportsComeBack, ImportsArePuts, ImportsLeaveOthers, ImportsOfExports, RightSheetsReadBack, SheetsHaveNoNulls, SheetsKnowTheirView};
ghost use Rattle.server_laws.specs.StateLaws.{AnswersStayValid, FreshIsValid, LensesAreLawful, LensesAreTyped, LensesHaveKeys, SessionsStayValid};
ghost use Rattle.server_laws.specs.UndoLaws.{NothingIsTold, UndoneAtOnce, UndoRestores};
ghost use Rattle.server_laws.specs.UpdateLaws.{NoExportIsLost, NoUpdateIsLost};
ghost use Rattle.server_laws.specs.ViewLaws.{FullIsTold, RulesAreTold, TakenWhereSorted, TypedIsTaken, UnknownIsTold};
ghost use Rattle.server_laws.specs.Witness.{BatchesCanChange, DropsCanChange, ExportsCanComeBack, PutsCanChange, UndosCanRestore, UpdatesCanRest};

/// Every state that the server reaches is valid, and in a valid state each lens has a sort, keys and
/// its tables, and keeps the laws of lenses over them.
pub fn states_stay_valid()
    ensures fresh { FreshIsValid }
    ensures answers { AnswersStayValid }
    ensures sessions { SessionsStayValid }
    ensures lenses { LensesAreTyped }
    ensures keys { LensesHaveKeys }
    ensures lawful { LensesAreLawful }
{}

/// A refusal and a question leave the state as it was, and the answer to a line is never that the
/// machine failed.
pub fn refusals_change_nothing()
    ensures state { RefusalsChangeNothing }
    ensures questions { QuestionsChangeNothing }
    ensures failure { AnswersDoNotFail }
{}

/// A line that finds in a view shows exactly those rows, of what a line that reads it shows, which
/// have the value; refused are a view that is not there, then a column that is not, then a value
/// that does not fit.
pub fn finds_are_filters()
    ensures found { FindsAreFilters }
    ensures unknown { FindsKnowTheirView }
    ensures column { FindsKnowTheirColumn }
    ensures value { FoundValuesFit }
{}

/// The server accepts a put if and only if the new view satisfies its sort. A read then shows the
/// view that was put, and the put changes exactly the differences of the tables.
pub fn puts_are_lawful()
    ensures fits { SentRowsFit }
    ensures accepted { AcceptedWhereTyped }
    ensures refused { RefusedByLeastRow }
    ensures clashes { RefusedByFirstClash }
    ensures either { AcceptedOrRefused }
    ensures put_get { PutThenRead }
    ensures told { ChangesAreTold }
    ensures differences { ChangesAreDifferences }
    ensures others { OtherTablesStay }
    ensures get_put { ReadThenPut }
{}

/// The server rejects a line that puts or edits for its name, for a bad row, for a stale version,
/// or for the reason for which it rejects a put of the new view. Otherwise it accepts the line and
/// reports the changes, and the next line reads that view. A line that imports the rows of a text
/// is answered as one that puts them. A preview is answered as the edit would be.
pub fn changes_are_lawful()
    ensures reads { LinesReadViews }
    ensures settle { LinesSettle }
    ensures unknown { UnknownNamesAreTold }
    ensures bad { BadRowsAreTold }
    ensures removed { RemovedComeFirst }
    ensures stale { StaleIsTold }
    ensures greatest { LastChangeIsGreatest }
    ensures present { PresentIsNotStale }
    ensures fits { SentViewsFit }
    ensures puts { LinesPutSets }
    ensures accepted { LinesAcceptedWhereTyped }
    ensures refused { LinesRefusedByLeastRow }
    ensures clashes { LinesRefusedByFirstClash }
    ensures either { LinesAcceptedOrRefused }
    ensures get_put { NothingIsChanged }
    ensures put_get { NextLineReads }
    ensures told { LinesTellChanges }
    ensures differences { LinesMakeDifferences }
    ensures others { LinesLeaveOthers }
    ensures previews { PreviewsForetell }
{}

/// The server rejects a batch for its first edit that it rejects. It tests each edit on the tables
/// that the edits before it gave. Otherwise the edits are made one after another, each lawfully,
/// and the batch reports exactly how the tables differ. A batch of one edit is answered as the edit
/// is.
pub fn batches_are_edits()
    ensures refused { FirstRefusedIsTold }
    ensures either { BatchesAcceptedOrRefused }
    ensures made { BatchesAreMade }
    ensures differences { BatchesLead }
    ensures lawful { EditsAreLawful }
    ensures none { NoEditsChangeNothing }
    ensures nothing { NothingMadeChangesNothing }
    ensures one { OneEditIsAnEdit }
{}

/// An undo makes every table that was there just before the change that it undoes what it was then.
/// The server rejects an undo if and only if no change is left.
pub fn changes_can_be_undone()
    ensures nothing { NothingIsTold }
    ensures once { UndoneAtOnce }
    ensures restores { UndoRestores }
{}

/// An accepted change that is based on a version at which its view was read or exported finds the
/// view as it was then.
pub fn no_update_is_lost()
    ensures read { NoUpdateIsLost }
    ensures exported { NoExportIsLost }
{}

/// A line that exports is answered with the rows of the view as a text, and one that imports puts
/// the rows of its text. Both are refused for a name that has no lens, and then for a column that
/// may be null; an import also for a record that cannot be read. To import what was exported
/// changes nothing, as long as no table of the view was changed.
pub fn exports_can_be_imported()
    ensures unknown { SheetsKnowTheirView }
    ensures nulls { SheetsHaveNoNulls }
    ensures records { BadRecordsAreTold }
    ensures exports { ExportsAreSheets }
    ensures imports { ImportsArePuts }
    ensures others { ImportsLeaveOthers }
    ensures back { RightSheetsReadBack }
    ensures same { ImportsOfExports }
    ensures sessions { ExportsComeBack }
{}

/// The server accepts a definition if and only if `judged` accepts it. The definition is shown from
/// then on, and its name is never accepted again. It leaves each table and each view that was
/// there.
pub fn definitions_are_judged()
    ensures read { TakenIsRead }
    ensures taken { TakenWhereJudged }
    ensures added { TakenIsAdded }
    ensures refused { RefusedStays }
    ensures faults { FaultsAreTold }
    ensures tables { NewTablesAreEmpty }
    ensures views { NewViewsShow }
    ensures once { NamesAreTakenOnce }
    ensures stays { LensesStay }
    ensures tables_stay { DefinitionsLeaveTables }
    ensures views_stay { DefinitionsLeaveViews }
{}

/// The server rejects a view whose name is free for a name in it that has no lens, or for the first
/// refusal of a left side or of its whole lens, and then for too many views. Otherwise it accepts
/// the view. The names in it may be those of tables and of views.
pub fn views_are_judged()
    ensures whole { TakenWhereSorted }
    ensures unknown { UnknownIsTold }
    ensures rules { RulesAreTold }
    ensures full { FullIsTold }
    ensures taken { TypedIsTaken }
{}

/// The version rises by one if and only if something changes and is not only previewed, and each
/// table reports the version that changed it last.
pub fn versions_rise()
    ensures rises { ChangesRaiseVersions }
    ensures stays { OthersStay }
    ensures told { VersionsAreTold }
    ensures last { LastFollows }
{}

/// Over a session in which the keeper does not fail, each reply is the answer to its line, or says
/// that memory ran out. If no reply says that, the replies are exactly the answers, in order. At
/// most one reply reports each rise of the keeper's count. If no answer changes the state, the
/// count stays as it was.
pub fn sessions_are_complete()
    ensures answers { RepliesAreAnswers }
    ensures complete { SessionsAreComplete }
    ensures faults { FaultsAreCounted }
    ensures failures { AnswersReadOtherwise }
    ensures still { CountsStay }
{}

/// What a keeper stores of a state follows each change.
pub fn kept_follows()
    ensures puts { PutsAreKept }
    ensures definitions { DefinitionsAreKept }
    ensures changes { ChangesAreKept }
{}

/// The premises of the laws of puts can be met, over a view, by a put that changes something; also
/// over a view that drops a column of a selection. Those of the laws of batches, of updates, of
/// undo and of imports of exports can be met by sessions.
pub fn premises_can_be_met()
    ensures puts { PutsCanChange }
    ensures drops { DropsCanChange }
    ensures batches { BatchesCanChange }
    ensures updates { UpdatesCanRest }
    ensures undos { UndosCanRestore }
    ensures exports { ExportsCanComeBack }
{}
