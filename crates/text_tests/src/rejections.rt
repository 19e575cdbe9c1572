//! Why a catalogue rejects definitions, in words.
use lens_values::Text;
use std::alloc::Global;
use std::process::Abort;
use view_catalog::Catalog;

// Definitions, each with the reason if the catalogue rejects it.
const DEFINITIONS: &str = "\
table t (a int, b int) with a -> b where b >= 1
table u (a int, b int) with a -> b where a < b
view v = select from (drop b determined by (a, 3) from t) where a >= 1
view => the text goes wrong at offset 4
view v = u => the name v is taken
table x (b int, c int)
view w = y => no table and no view has the name y
view w = select from v where c = 1 => no column has the name c
view w = drop b determined by (a, true) from t => column b has two types
table w (a int, b int, c int) with a -> c, b -> c => the dependencies have no tree form, because two of their sides overlap
view w = select from t where a = 'x' => column a is compared with a value or a column of another type
view w = select from (select from t where a < b) where a = 1 => a conjunct of the source mentions b and is not stable under revision
view w = drop a determined by (b, 1) from t => the named columns do not determine a, or it determines others
view w = drop b determined by (a, 1) from u => conjunct 0 mentions the dropped column and another one
view w = drop b determined by (a, 0) from t => the predicate does not hold on the value that fills the dropped column
view w = join_dl t with x => the shared columns do not determine c of the right side
view w = join_dl t with u => a conjunct of the right side mentions b and is not stable under revision
view w = join_dl u with t => a conjunct of the left side mentions b and is not stable under revision
view w = join_dl v with t => both sides are over the table t
view w = rename a to b from t => there is a column b already
view w = select from t where not not not not not not not not not not not not not not not not not not not not not not not not not not not not not not not not not true => more than 32 parentheses and \"not\"s are open at once
table w (c0 int, c1 int, c2 int, c3 int, c4 int, c5 int, c6 int, c7 int, c8 int, c9 int, c10 int, c11 int, c12 int, c13 int, c14 int, c15 int, c16 int, c17 int, c18 int, c19 int, c20 int, c21 int, c22 int, c23 int, c24 int, c25 int, c26 int, c27 int, c28 int, c29 int, c30 int, c31 int, c32 int, c33 int, c34 int, c35 int, c36 int, c37 int, c38 int, c39 int, c40 int, c41 int, c42 int, c43 int, c44 int, c45 int, c46 int, c47 int, c48 int, c49 int, c50 int, c51 int, c52 int, c53 int, c54 int, c55 int, c56 int, c57 int, c58 int, c59 int, c60 int, c61 int, c62 int, c63 int, c64 int) => there are more than 64 columns";

#[test]
fn rejections_have_reasons(rt: HostRuntime) {
    let alloc = rt.alloc();
    let mut catalog = Catalog::new(alloc);
    for case in DEFINITIONS.lines() {
        let (text, reason) = case.split_once(" => ").unwrap_or((case, ""));
        let found = offer(&rt, alloc, &mut catalog, text);
        assert!(rt; found.as_str() == reason, "{case}");
    }
    assert!(rt; catalog.tables() == 3 && catalog.views() == 1);
    assert!(rt; catalog.definitions().len() == 4);
}

// Adds the definition to the catalogue, or returns the reason why the catalogue rejects it.
fn offer(rt: &impl Abort, alloc: Global, catalog: &mut Catalog, text: &str) -> String {
    let text = Text::new(alloc, text).expect(rt, text);
    match catalog.prepare(alloc, text) {
        Ok(prepared) => {
            catalog.admit(prepared);
            String::new(alloc)
        }
        Err(fault) => format!(in alloc; "{fault}").expect(rt, "memory"),
    }
}
