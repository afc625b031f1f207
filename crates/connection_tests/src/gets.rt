//! Transactions of GETs: replies that fit into the output buffer and such that do not, and watches that end with them.

use crate::sizes::{Row, check};

/// Two keys that have values, one that has none, and one of the two twice. Then so much is said in one go that there is no room for the
/// reply of the last transaction of large values.
const READ: &[Row] = &[
    ("MULTI", "+OK"),
    ("EXEC", "*0"),
    ("MULTI", "+OK"),
    ("GET a", "+QUEUED"),
    ("EXEC", "*1,$-1"),
    ("SET a #", "+OK"),
    ("SET b v", "+OK"),
    ("SET c ", "+OK"),
    ("MULTI", "+OK"),
    ("GET a", "+QUEUED"),
    ("EXEC", "*1,$#"),
    ("MULTI", "+OK"),
    ("GET a", "+QUEUED"),
    ("GET none", "+QUEUED"),
    ("GET b", "+QUEUED"),
    ("GET c", "+QUEUED"),
    ("GET a", "+QUEUED"),
    ("EXEC", "*5,$#,$-1,$1,v,$0,,$#"),
    ("MULTI", "+OK"),
    ("GET a", "+QUEUED"),
    ("GET a", "+QUEUED"),
    ("GET a", "+QUEUED"),
    ("EXEC", "*3,$#,$#,$#"),
    ("GET a", "$#"),
    ("MULTI", "+OK"),
    ("GET a", "+QUEUED"),
    ("GET a", "+QUEUED"),
    ("EXEC", "*2,$#,$#"),
    ("PING", "+PONG"),
    ("MULTI", "+OK"),
    ("GET a", "+QUEUED"),
    ("EXEC", "*1,$#"),
    ("GET b", "$1,v"),
];

#[test]
fn transactions_of_gets(rt: HostRuntime) {
    for size in [1, 1_000, 16_384, 32_720, 32_730, 32_740, 32_750, 32_768] {
        check(&rt, rt.alloc(), READ, size);
    }
}

/// Transactions of GETs of a session that watches keys, of which one was written, or none. Each ends the watches.
const WATCHED: &[Row] = &[
    ("SET a #", "+OK"),
    ("WATCH a b", "+OK"),
    ("MULTI", "+OK"),
    ("GET a", "+QUEUED"),
    ("GET b", "+QUEUED"),
    ("EXEC", "*2,$#,$-1"),
    ("SET a v", "+OK"),
    ("MULTI", "+OK"),
    ("GET a", "+QUEUED"),
    ("EXEC", "*1,$1,v"),
    ("WATCH a", "+OK"),
    ("WATCH b", "+OK"),
    ("SET b w", "+OK"),
    ("MULTI", "+OK"),
    ("GET a", "+QUEUED"),
    ("EXEC", "*-1"),
    ("MULTI", "+OK"),
    ("GET a", "+QUEUED"),
    ("GET b", "+QUEUED"),
    ("EXEC", "*2,$1,v,$1,w"),
    ("WATCH c", "+OK"),
    ("MULTI", "+OK"),
    ("GET a", "+QUEUED"),
    ("EXEC", "*1,$1,v"),
    ("SET c x", "+OK"),
    ("MULTI", "+OK"),
    ("SET c y", "+QUEUED"),
    ("GET c", "+QUEUED"),
    ("EXEC", "*2,+OK,$1,y"),
];

#[test]
fn transactions_of_gets_end_watches(rt: HostRuntime) {
    for size in [1, 1_000, 32_768] {
        check(&rt, rt.alloc(), WATCHED, size);
    }
}
