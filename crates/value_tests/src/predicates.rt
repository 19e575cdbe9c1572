//! Formulas that no definition says: with null as a value, with a column that the row lacks or a
//! value of another type, and out of normal form.
use crate::samples::{check, columns, name, row, value};
use lens_pred::{Formula, Formulas, NotNormal, Op, Pred, PredFault, Values};
use lens_values::Name;
use std::alloc::Global;
use std::process::Abort;

const ROW: &str = "a=2 b=3 n=null";

// Comparisons that fail on the row, so that their negations hold.
const FAIL: &str = "\
c = 2
c != 2
a = x
a < .c
a > null
c is null
n = null
n in null 2";

#[test]
fn comparisons_hold_or_fail(rt: HostRuntime) {
    let alloc = rt.alloc();
    assert!(rt; holds(&rt, alloc, comparison(&rt, alloc, "a in null 2")));
    for line in FAIL.lines() {
        fails(&rt, alloc, line);
    }
}

// Checks that the comparison fails on the row, and its negation holds.
fn fails(rt: &impl Abort, alloc: Global, line: &str) {
    check(rt, !holds(rt, alloc, comparison(rt, alloc, line)), line);
    let negation = not(rt, alloc, comparison(rt, alloc, line));
    check(rt, holds(rt, alloc, negation), line);
}

#[test]
fn comparisons_with_null_fit_columns(rt: HostRuntime) {
    let alloc = rt.alloc();
    assert!(rt; fault(&rt, alloc, "rating in 1 null").is_none());
    assert!(rt; fault(&rt, alloc, "title = null").is_none());
    let name = name(&rt, "rating");
    assert!(rt; fault(&rt, alloc, "rating in null x") == Some(PredFault::PredKind { name }));
}

#[test]
fn conjuncts_are_in_normal_form(rt: HostRuntime) {
    let alloc = rt.alloc();
    is_not_normal(&rt, alloc, comparison(&rt, alloc, "a in"));
    is_not_normal(&rt, alloc, both(&rt, alloc, Formula::False));
    let nested = both(&rt, alloc, both(&rt, alloc, Formula::False));
    is_not_normal(&rt, alloc, not(&rt, alloc, nested));
}

// Checks that the formula is no conjunct.
fn is_not_normal(rt: &impl Abort, alloc: Global, formula: Formula) {
    let list = vec![in alloc; Formula::True, formula].expect(rt, "memory");
    assert!(rt; Pred::new(list).err() == Some(NotNormal { index: 1 }));
}

// The predicate of one conjunct.
fn pred(rt: &impl Abort, alloc: Global, formula: Formula) -> Pred {
    Pred::new(vec![in alloc; formula].expect(rt, "memory")).expect(rt, "a conjunct")
}

// Whether the formula holds on the row.
fn holds(rt: &impl Abort, alloc: Global, formula: Formula) -> bool {
    pred(rt, alloc, formula).holds(&row(rt, alloc, ROW))
}

// Why the comparison does not fit the columns.
fn fault(rt: &impl Abort, alloc: Global, text: &str) -> Option<PredFault> {
    let columns = columns(rt, alloc, "genre:text? rating:int? title:text");
    let pred = pred(rt, alloc, comparison(rt, alloc, text));
    pred.check(&columns).err()
}

// The formula holds, and what always does.
fn both(rt: &impl Abort, alloc: Global, formula: Formula) -> Formula {
    let list = vec![in alloc; formula, Formula::True].expect(rt, "memory");
    Formula::And(Formulas::new(list))
}

// The formula does not hold.
fn not(rt: &impl Abort, alloc: Global, formula: Formula) -> Formula {
    Formula::Not(Box::new(alloc, formula).expect(rt, "memory"))
}

// A column against a value, as `a > 1`, against another column, as `a > .b`, or against a list of
// values, as `a in 1 2`; or that it is null, as `a is null`.
fn comparison(rt: &impl Abort, alloc: Global, text: &str) -> Formula {
    let (col, rest) = text.split_once(' ').expect(rt, text);
    let (sign, right) = rest.split_once(' ').unwrap_or((rest, ""));
    let col = name(rt, col);
    match sign {
        "in" => Formula::OneOf {
            col,
            values: values(rt, alloc, right),
        },
        "is" => Formula::IsNull { col },
        _ => compared(rt, alloc, col, op(rt, sign), right),
    }
}

// The column against a value or another column.
fn compared(rt: &impl Abort, alloc: Global, col: Name, op: Op, right: &str) -> Formula {
    match right.strip_prefix('.') {
        Some(other) => Formula::CompareCols {
            col,
            op,
            other: name(rt, other),
        },
        None => Formula::Compare {
            col,
            op,
            value: value(rt, alloc, right),
        },
    }
}

// The comparison that the sign says.
fn op(rt: &impl Abort, sign: &str) -> Op {
    match sign {
        "=" => Op::Eq,
        "!=" => Op::Ne,
        "<" => Op::Lt,
        ">" => Op::Gt,
        _ => panic!(rt; "no sign"),
    }
}

// The values that the text lists.
fn values(rt: &impl Abort, alloc: Global, text: &str) -> Values {
    let mut list = Vec::new(alloc);
    for word in text.split_whitespace() {
        list.push(value(rt, alloc, word)).expect(rt, "memory");
    }
    Values::new(list)
}
