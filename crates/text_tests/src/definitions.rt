//! Definitions that are read from texts, and printed.
use lens_values::Text;
use std::alloc::Global;
use std::process::Abort;
use view_lang::{parse, print};

// Texts, each with the definition as it is printed, if that is another text.
const TEXTS: &str = "\
view v=t => view v = t
view v = select from (join_dl t with (drop a determined by (c b, -2) from u)) where a < b and (b >= 1 and a = 2) => view v = select from (join_dl t with (drop a determined by (b c, -2) from u)) where a < b and b >= 1 and a = 2
table t(a bool) => table t (a bool)
view v=join_dr(rename album to title from(join_both t with u))with w => view v = join_dr (rename album to title from (join_both t with u)) with w
table w (a int, b text) with a -> b where (a < 3 or b = 'x') and not a in (1, 2)
table t (b int, a int) with b a -> a, b->a where a != b => table t (a int, b int) with a b -> a, b -> a where a != b
view v = select from t where a = 1 and b = 2 or c = 3
view v = select from t where a = 1 or (b = 2 or c = 3) => view v = select from t where a = 1 or b = 2 or c = 3
view v = select from t where (a = 1 or b = 2) and (c = 3) => view v = select from t where (a = 1 or b = 2) and c = 3
view v = select from t where not (a = 1) and b = 2 => view v = select from t where not a = 1 and b = 2
view v = select from t where a = 5and b = 'it''s' and c = -0 => view v = select from t where a = 5 and b = 'it''s' and c = 0
table t (b bool  null, n int\tnull, t text null , m int) where b is null or not t is  null and n in (1,2) => table t (b bool null, m int, n int null, t text null) where b is null or not t is null and n in (1, 2)
view d = drop b determined by (k,null) from (select from kb where (m = 1) and not not t is null) => view d = drop b determined by (k, null) from (select from kb where m = 1 and not not t is null)
view v = select from t where not not a in (true, '', 9223372036854775807, -9223372036854775808)
view v = select from t where a >= -5
view v = select from t where a != -9223372036854775808
view v = select from t where b = 'it''s '''''
view v = select from t where a in (1, -2)
view v = select from t where c = true
view v = select from t where c is null
view v = select from t where a <= c
view v = select from t where true
view v = select from t where false
view v = select from t where (a < 3 or b = 'x') and true
view v = select from t where false or a < 3 and b = 'x'
view v = select from t where not (a < 3 and b = 'x')
view v = select from t where not not a < 3
view v = select from t where not c is null
table w (a int, b text, c bool null) with a -> b where (a < 3 or b = 'x') and not a in (1, 2)
view v = drop date determined by (track, 2018) from (join_dl tracks with albums)
view v = join_dl (select from (drop date determined by (track, 2018) from (join_dl tracks with albums)) where a < 3 or b = 'x') with t
view v = join_dr (join_both tracks with albums) with (rename day to due from loans)";

#[test]
fn definitions_are_read_and_printed(rt: HostRuntime) {
    for case in TEXTS.lines() {
        let (text, printed) = case.split_once(" => ").unwrap_or((case, case));
        is_printed(&rt, rt.alloc(), text, printed);
    }
}

// Checks how the definition that the text says is printed.
fn is_printed(rt: &impl Abort, alloc: Global, text: &str, printed: &str) {
    let definition = parse(alloc, &Text::new(alloc, text).expect(rt, text)).expect(rt, text);
    let found = print(alloc, &definition).expect(rt, text);
    assert!(rt; found.as_str() == printed, "{text}");
}
