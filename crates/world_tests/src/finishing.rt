//! Worlds that are finished: whatever was done before, each client gets all its replies.

use crate::tests::schedule;

/// Pieces alone, of requests on two stripes and on both.
#[test]
fn pieces_alone_are_answered(rt: HostRuntime) {
    let text =
        "rest; ask 0 SET a 1; ask 0 MGET a b; ask 0 PING; ask 1 MSET b 2 a 3; ask 1 GET b; no rest; silent 0; silent 1; finish; \
        rest; told 0 +OK|*2|$1|1|$-1|+PONG|; told 1 +OK|$1|2|; entries 0 0 1 1";
    schedule(&rt, rt.alloc(), text);
}

/// A client waits for a stripe that another holds, which waits for one itself, that a third action gives back.
#[test]
fn clients_that_wait_for_each_other_go_on(rt: HostRuntime) {
    let text =
        "ask 0 MSET a 1 b 2; ask 1 GET a; do take 1 12; do take 0 5; not take 0 12; finish; rest; told 0 +OK|; \
        told 1 $-1|; entries 1 0";
    schedule(&rt, rt.alloc(), text);
    let text =
        "ask 0 MSET a 1 b 2; ask 1 MGET b a; do take 1 5; not take 0 5; not take 0 12; finish; rest; told 0 +OK|; \
        told 1 *2|$-1|$-1|; entries 1 0";
    schedule(&rt, rt.alloc(), text);
}

/// Calls that are committed give their stripes back, and what came meanwhile is answered.
#[test]
fn a_call_between_its_commit_and_its_give(rt: HostRuntime) {
    let text =
        "ask 0 MSET a 1 b 2; do take 0 5; do take 0 12; do commit 0; do give 0 5; ask 0 GET a; told 0 +OK|; no rest; finish; \
        rest; told 0 +OK|$1|1|; entries 0 0";
    schedule(&rt, rt.alloc(), text);
}

/// Transactions: one is done, and one is not, since a key that its client watched was written.
#[test]
fn transactions_are_finished(rt: HostRuntime) {
    let text =
        "ask 0 WATCH a; turn 0 12; ask 1 SET a 1; turn 1 12; ask 0 MULTI; ask 0 GET a; ask 0 EXEC; ask 1 MULTI; ask 1 GET a; \
        ask 1 EXEC; finish; rest; told 0 +OK|+OK|+QUEUED|*-1|; told 1 +OK|+OK|+QUEUED|*1|$1|1|; entries 0 1 0 1";
    schedule(&rt, rt.alloc(), text);
}

/// A part of a request waits for more, and rests.
#[test]
fn a_part_of_a_request_rests(rt: HostRuntime) {
    let text =
        "raw 0 *2|$3|GET|$1|; rest; finish; silent 0; raw 0 a|; no rest; finish; rest; told 0 $-1|; entries 0";
    schedule(&rt, rt.alloc(), text);
}

/// After QUIT nothing is answered; at a protocol fault its line is written; and what a client watched is forgotten.
#[test]
fn sessions_that_are_over_are_finished(rt: HostRuntime) {
    let text =
        "ask 0 WATCH a b; ask 0 QUIT; ask 0 GET a; ask 1 WATCH b; raw 1 #; no rest; finish; rest; told 0 +OK|+OK|; \
        told 1 +OK|-ERR Protocol error: expected '*'|; entries 0 1; not close 0; not close 1";
    schedule(&rt, rt.alloc(), text);
    let text =
        "ask 0 SET a 1; close 0; ask 1 PING; finish; rest; told 0 +OK|; told 1 +PONG|; entries 0; not close 0; do close 1";
    schedule(&rt, rt.alloc(), text);
}
