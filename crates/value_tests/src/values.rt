//! Which rows fit which columns.
use crate::samples::{check, columns, row};
use std::alloc::Global;
use std::process::Abort;

// Rows, columns, and whether the rows fit them.
const FITS: &str = "\
a=7 b=x c=true | a:int b:text c:bool | yes
a=7 b=x c=true | a:int? b:text? c:bool? | yes
a=null b=null c=null | a:int? b:text? c:bool? | yes
a=null | a:int | no
a=null | a:text | no
a=null | a:bool | no
a=x | a:int? | no
a=7 | a:bool? | no
a=true | a:text? | no
a=null | b:int? | no
a=null | a:int? b:int? | no";

#[test]
fn rows_fit_columns(rt: HostRuntime) {
    for line in FITS.lines() {
        check(&rt, is_so(&rt, rt.alloc(), line), line);
    }
}

// Whether it is as the line says that the row fits the columns.
fn is_so(rt: &impl Abort, alloc: Global, line: &str) -> bool {
    let (cells, rest) = line.split_once('|').expect(rt, line);
    let (of, is_fit) = rest.split_once('|').expect(rt, line);
    row(rt, alloc, cells).fits(&columns(rt, alloc, of)) == (is_fit == " yes")
}
