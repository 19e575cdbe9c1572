//! A sink and a cutter of lines by themselves.
use lens_io::{Cut, LineCutter, MemorySink, MemorySource, Offer, give_all};
use std::process::Abort;

#[test]
fn a_sink_takes_what_it_has_room_for(rt: HostRuntime) {
    let alloc = rt.alloc();
    let mut sink = MemorySink::new(alloc, 3, 2, Vec::new(alloc)).expect(&rt, "memory");
    assert!(rt; give_all(&mut sink, b"abcde").is_err());
    assert!(rt; sink.bytes() == b"abc".as_slice() && sink.faults() == 1);
    let offers = [offer(5, 2), offer(3, 1), offer(2, 0)];
    assert!(rt; sink.offered() == Some(offers.as_slice()));
}

// A call of a sink.
fn offer(size: usize, took: usize) -> Offer {
    Offer { size, took }
}

#[test]
fn lines_are_cut(rt: HostRuntime) {
    let alloc = rt.alloc();
    let mut cutter = LineCutter::new(alloc, 100).expect(&rt, "memory");
    let bytes = Vec::from_slice(alloc, b"a\nb").expect(&rt, "memory");
    let mut source = MemorySource::new(bytes, 2, Vec::new(alloc));
    assert!(rt; cutter.next(&mut source) == Cut::Line);
    assert!(rt; cutter.line() == b"a".as_slice());
    is_asked_once(&rt, &source);
}

// Checks that the source was asked for one line.
fn is_asked_once(rt: &impl Abort, source: &MemorySource) {
    match source.asked() {
        Some([take]) => {
            assert!(rt; take.room == 101 && take.came.as_slice() == b"a\n".as_slice());
        }
        _ => panic!(rt; "how many takes"),
    }
}
