//! The laws of opening a store, the contract of a function with an empty body.
#![tactic(auto)]

ghost use Rattle.opening_laws.specs.OpenLaws.{KeptIsOpened, NothingOpens, OpenedIsAtStart, OpenedIsKept, OpenedIsValid, OpensWhereKept, SessionsOpenAgain};

/// A store opens if and only if it is what is stored of a valid state. Its texts and its rows are
/// then those of that state, and every version is 0. So what any session leaves opens again.
pub fn stores_open()
    ensures nothing { NothingOpens }
    ensures valid { OpenedIsValid }
    ensures kept { OpenedIsKept }
    ensures start { OpenedIsAtStart }
    ensures opened { KeptIsOpened }
    ensures exactly { OpensWhereKept }
    ensures again { SessionsOpenAgain }
{}
