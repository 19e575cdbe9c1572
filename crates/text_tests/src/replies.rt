//! The reply that memory ran out.
use request_text::{Answer, memory_reply, reply_text};

#[test]
fn no_memory_is_reported(rt: HostRuntime) {
    let line = b"{\"error\":1,\"ok\":false}\n".as_slice();
    let reply = reply_text(rt.alloc(), &Answer::Memory).expect(&rt, "memory");
    assert!(rt; reply.bytes() == line && memory_reply().bytes() == line);
}
