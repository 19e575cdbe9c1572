//! Keepers over memory by themselves, and contents in one that a server would not commit.
ghost use Rattle.std.specs.Prelude.{IfOk};
ghost use Rattle.table_keeper.specs.Places.{Rise};

use crate::runs::{PLAIN, failing, given, is_given};
use lens_values::{Name, NoMemory, Text};
use row_sets::RowSet;
use std::alloc::Global;
use std::process::Abort;
use table_keeper::{
    Asked, Call, Change, KeepFault, Keeper, Kept, KeptTable, MemoryKeeper, SureKeeper,
};

// The text of a definition.
fn definition(rt: &impl Abort, alloc: Global) -> Text {
    Text::new(alloc, "view v = t").expect(rt, "a text")
}

// Checks that the definition is all that is kept.
fn is_kept(rt: &impl Abort, kept: &Kept) {
    match kept.definitions.as_slice() {
        [text] => assert!(rt; text.as_str() == "view v = t"),
        _ => panic!(rt; "how many definitions"),
    }
    assert!(rt; kept.tables.is_empty());
}

#[test]
fn a_keeper_keeps_what_it_is_given(rt: HostRuntime) {
    let alloc = rt.alloc();
    let mut keeper = MemoryKeeper::holding(Kept::nothing(alloc), failing(&rt, alloc, 2));
    let text = definition(&rt, alloc);
    let change = Change::Define { text, table: None };
    keeper.attach(alloc, "x").expect(&rt, "the first call");
    assert!(rt; keeper.load(alloc).err() == Some(KeepFault::Failed));
    keeper.commit(alloc, &change).expect(&rt, "the third call");
    is_kept(&rt, &keeper.load(alloc).expect(&rt, "the fourth call"));
    tells(&rt, &keeper);
}

// Checks that the keeper tells the calls of the test.
fn tells(rt: &impl Abort, keeper: &MemoryKeeper) {
    let told = [
        call(Asked::Attach, None, 0),
        call(Asked::Load, Some(KeepFault::Failed), 1),
        call(Asked::Commit, None, 1),
        call(Asked::Load, None, 1),
    ];
    assert!(rt; keeper.calls() == Some(told.as_slice()));
}

// The call, as a keeper tells it.
fn call(asked: Asked, fault: Option<KeepFault>, faults: u64) -> Call {
    Call {
        asked,
        fault,
        faults,
    }
}

#[test]
fn a_sure_keeper_keeps_too(rt: HostRuntime) {
    let alloc = rt.alloc();
    let mut keeper = SureKeeper::holding(Kept::nothing(alloc));
    let text = definition(&rt, alloc);
    let change = Change::Define { text, table: None };
    keeper.commit(alloc, &change).expect(&rt, "a commit");
    keeper.attach(alloc, "x").expect(&rt, "a place");
    is_kept(&rt, &keeper.load(alloc).expect(&rt, "a load"));
    assert!(rt; keeper.calls().is_some_and(|calls| calls.len() == 3));
}

// The table alone, with no row.
fn only(alloc: Global, table: Name) -> Result<Vec<KeptTable>, NoMemory>
    ensures { IfOk result (λ tables. Rise tables.items) }
{
    let rows = RowSet::empty(alloc);
    Ok(vec![in alloc; KeptTable { table, rows }]?)
}

// No definition makes the table that is kept.
const STRANGE: &str = r#"{"damaged":{"strange":"albums"}}
"#;

#[test]
fn damage_is_reported(rt: HostRuntime) {
    let alloc = rt.alloc();
    let albums = Name::new("albums").expect(&rt, "a name");
    let kept = Kept {
        definitions: Vec::new(alloc),
        tables: only(alloc, albums).expect(&rt, "memory"),
    };
    let mut keeper = MemoryKeeper::holding(kept, Vec::new(alloc));
    let request = "{\"do\":\"list\"}\n".to_string(alloc).expect(&rt, "memory");
    let sink = given(&rt, alloc, PLAIN, request, &mut keeper, 7);
    is_given(&rt, sink.bytes(), STRANGE);
}
