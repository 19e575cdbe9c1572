//! Changes that a keeper refuses once.
use crate::runs::keeper;
use crate::scripts::{BASE, PUT_STOCK, follow};

// A definition of a table, which the keeper refuses, and takes when it is sent again.
const TABLE: &str = r#"{"do":"define","text":"table goods (name text, quantity int)"}
{"error":90,"ok":false}
{"do":"list"}
{"definitions":[],"ok":true,"version":0}
{"do":"define","text":"table goods (name text, quantity int)"}
{"ok":true,"version":1}"#;

// The same of a view.
const VIEW: &str = r#"{"do":"define","text":"table goods (name text, quantity int)"}
{"ok":true,"version":1}
{"do":"define","text":"view big = select from goods where quantity > 2"}
{"error":90,"ok":false}
{"do":"list"}
{"definitions":["table goods (name text, quantity int)"],"ok":true,"version":1}
{"do":"define","text":"view big = select from goods where quantity > 2"}
{"ok":true,"version":2}"#;

// A put over tables of its own, which the keeper refuses, and takes when it is sent again.
const PUT: &str = r#"{"do":"define","text":"table goods (name text, quantity int)"}
{"ok":true,"version":1}
{"do":"define","text":"view big = select from goods where quantity > 2"}
{"ok":true,"version":2}
{"do":"put","view":"goods","rows":[{"name":"nail","quantity":1},{"name":"saw","quantity":4}]}
{"error":90,"ok":false}
{"do":"put","view":"goods","rows":[{"name":"nail","quantity":1},{"name":"saw","quantity":4}]}
{"changed":[{"add":[{"name":"nail","quantity":1},{"name":"saw","quantity":4}],"remove":[],"table":"goods"}],"ok":true,"version":3}"#;

// The put of `PUT_STOCK`: the view then shows what it showed before.
const PUT_VIEW: &str =
    r#"{"do":"put","view":"stock","rows":[{"album":"Show","quantity":3,"rating":4,"track":"Lullaby"},{"album":"Disintegration","quantity":7,"rating":5,"track":"Lovesong"}]}
{"error":90,"ok":false}
{"do":"read","view":"stock"}
{"ok":true,"rows":[{"album":"Paris","quantity":4,"rating":5,"track":"Lovesong"},{"album":"Show","quantity":3,"rating":3,"track":"Lullaby"},{"album":"Wish","quantity":5,"rating":4,"track":"Trust"}],"version":5}"#;

// An edit: no version is spent, and questions and changes that change nothing do not ask the keeper.
const EDIT: &str =
    r#"{"do":"preview","view":"stock","remove":[{"album":"Wish","quantity":5,"rating":4,"track":"Trust"}],"add":[]}
{"changed":[{"add":[],"remove":[{"album":"Wish","date":1992,"rating":4,"track":"Trust"}],"table":"tracks"}],"ok":true,"version":5}
{"do":"edit","view":"stock","remove":[],"add":[],"on":5}
{"changed":[],"ok":true,"version":5}
{"do":"edit","view":"stock","remove":[{"album":"Wish","quantity":5,"rating":4,"track":"Trust"}],"add":[],"on":5}
{"error":90,"ok":false}
{"do":"read","view":"stock"}
{"ok":true,"rows":[{"album":"Paris","quantity":4,"rating":5,"track":"Lovesong"},{"album":"Show","quantity":3,"rating":3,"track":"Lullaby"},{"album":"Wish","quantity":5,"rating":4,"track":"Trust"}],"version":5}
{"do":"edit","view":"stock","remove":[{"album":"Wish","quantity":5,"rating":4,"track":"Trust"}],"add":[],"on":5}
{"changed":[{"add":[],"remove":[{"album":"Wish","date":1992,"rating":4,"track":"Trust"}],"table":"tracks"}],"ok":true,"version":6}"#;

// A batch: undo takes back the change before it.
const BATCH: &str =
    r#"{"do":"batch","edits":[{"view":"albums","remove":[],"add":[{"album":"Mixed","quantity":8}]},{"view":"stock","remove":[],"add":[{"album":"Mixed","quantity":8,"rating":5,"track":"Lovesong"}]}]}
{"error":90,"ok":false}
{"do":"read","view":"albums"}
{"ok":true,"rows":[{"album":"Disintegration","quantity":6},{"album":"Galore","quantity":1},{"album":"Paris","quantity":4},{"album":"Show","quantity":3},{"album":"Wish","quantity":5}],"version":5}
{"do":"undo"}
{"changed":[{"add":[],"remove":[{"album":"Disintegration","quantity":6},{"album":"Galore","quantity":1},{"album":"Paris","quantity":4},{"album":"Show","quantity":3},{"album":"Wish","quantity":5}],"table":"albums"}],"ok":true,"version":6}"#;

// An undo: the next one is the same.
const UNDO: &str = r#"{"do":"undo"}
{"error":90,"ok":false}
{"do":"read","view":"albums"}
{"ok":true,"rows":[{"album":"Disintegration","quantity":6},{"album":"Galore","quantity":1},{"album":"Paris","quantity":4},{"album":"Show","quantity":3},{"album":"Wish","quantity":5}],"version":5}
{"do":"undo"}
{"changed":[{"add":[],"remove":[{"album":"Disintegration","quantity":6},{"album":"Galore","quantity":1},{"album":"Paris","quantity":4},{"album":"Show","quantity":3},{"album":"Wish","quantity":5}],"table":"albums"}],"ok":true,"version":6}
{"do":"undo"}
{"changed":[{"add":[],"remove":[{"album":"Galore","date":1989,"rating":3,"track":"Lullaby"},{"album":"Galore","date":1989,"rating":5,"track":"Lovesong"},{"album":"Paris","date":1989,"rating":5,"track":"Lovesong"},{"album":"Show","date":1989,"rating":3,"track":"Lullaby"},{"album":"Wish","date":1992,"rating":4,"track":"Trust"}],"table":"tracks"}],"ok":true,"version":7}
{"do":"undo"}
{"error":44,"ok":false}"#;

// An import: what was exported or read is put back without the keeper.
const IMPORT: &str = r#"{"do":"export","view":"stock"}
{"csv":"album,quantity,rating,track\nParis,4,5,Lovesong\nShow,3,3,Lullaby\nWish,5,4,Trust\n","ok":true,"version":5}
{"do":"import","view":"stock","csv":"album,quantity,rating,track\nParis,4,5,Lovesong\nShow,3,3,Lullaby\nWish,5,4,Trust\n","on":5}
{"changed":[],"ok":true,"version":5}
{"do":"put","view":"stock","rows":[{"album":"Paris","quantity":4,"rating":5,"track":"Lovesong"},{"album":"Show","quantity":3,"rating":3,"track":"Lullaby"},{"album":"Wish","quantity":5,"rating":4,"track":"Trust"}]}
{"changed":[],"ok":true,"version":5}
{"do":"import","view":"albums","csv":"quantity,album\n3,Show\n"}
{"error":90,"ok":false}
{"do":"import","view":"albums","csv":"quantity,album\n3,Show\n"}
{"changed":[{"add":[],"remove":[{"album":"Disintegration","quantity":6},{"album":"Galore","quantity":1},{"album":"Paris","quantity":4},{"album":"Wish","quantity":5}],"table":"albums"}],"ok":true,"version":6}"#;

// Which call of the keeper fails, and the scripts.
const REFUSED: [(u64, [&str; 3]); 8] = [
    (2, [TABLE, "", ""]),
    (3, [VIEW, "", ""]),
    (4, [PUT, "", ""]),
    (7, [BASE, PUT_VIEW, PUT_STOCK]),
    (7, [BASE, EDIT, ""]),
    (7, [BASE, BATCH, ""]),
    (7, [BASE, UNDO, ""]),
    (7, [BASE, IMPORT, ""]),
];

// What a run over the same keeper finds after the refused put of the view.
const FOUND_LATER: &str = r#"{"do":"list"}
{"definitions":["table tracks (track text, date int, rating int, album text) with track -> date rating","table albums (album text, quantity int) with album -> quantity","view stock = select from (drop date determined by (track, 2018) from (join_dl tracks with albums)) where quantity > 2"],"ok":true,"version":0}
{"do":"read","view":"tracks"}
{"ok":true,"rows":[{"album":"Galore","date":1989,"rating":3,"track":"Lullaby"},{"album":"Galore","date":1989,"rating":5,"track":"Lovesong"},{"album":"Paris","date":1989,"rating":5,"track":"Lovesong"},{"album":"Show","date":1989,"rating":3,"track":"Lullaby"},{"album":"Wish","date":1992,"rating":4,"track":"Trust"}],"version":0}
{"do":"read","view":"albums"}
{"ok":true,"rows":[{"album":"Disintegration","quantity":6},{"album":"Galore","quantity":1},{"album":"Paris","quantity":4},{"album":"Show","quantity":3},{"album":"Wish","quantity":5}],"version":0}"#;

#[test]
fn refused_changes_are_not_kept(rt: HostRuntime) {
    let alloc = rt.alloc();
    for (call, scripts) in REFUSED {
        follow(&rt, alloc, &mut keeper(&rt, alloc, call), &scripts);
    }
    let mut keeper = keeper(&rt, alloc, 7);
    follow(&rt, alloc, &mut keeper, &[BASE, PUT_VIEW]);
    follow(&rt, alloc, &mut keeper, &[FOUND_LATER]);
}
