//! Values that are held without an allocation or just not, and values of the most bytes, by the commands that answer a value:
//! sixteen requests in one piece, and the same cut at places that are drawn.

use crate::pieces::{Sink, Source, check_run};
use crate::sizes::{Row, replies, requests};
use connection::Ended;
use std::alloc::Global;
use std::process::Abort;
use std::sync::Wait;

const ROWS: &[Row] = &[
    ("SET a #", "+OK"),
    ("GET a", "$#"),
    ("GETRANGE a 0 -1", "$#"),
    ("GETRANGE a @ -1", "$1,v"),
    ("MGET a b a", "*3,$#,$-1,$#"),
    ("GETSET a #", "$#"),
    ("GETSET b #", "$-1"),
    ("MGET b a", "*2,$#,$#"),
    ("GETSET a x", "$#"),
    ("GET a", "$1,x"),
    ("GETSET a #", "$1,x"),
    ("GETRANGE a 0 @", "$#"),
    ("GETRANGE b @ @", "$1,v"),
    ("GET b", "$#"),
    ("GETDEL b", "$#"),
    ("MGET a b", "*2,$#,$-1"),
];

/// Asserts what is said to them, where values have so many bytes, and the sizes of reads are drawn from this number, if they are.
fn check<R: Abort + Wait>(rt: &R, alloc: Global, size: usize, draws: Option<u64>) {
    let input = requests(rt, alloc, ROWS, size);
    let mut source = Source::new(&input, 1_048_576);
    source.draws = draws;
    let sink = Sink::new(alloc, 1_048_576).expect(rt, "memory for a sink");
    check_run(
        rt,
        alloc,
        (source, sink),
        &replies(rt, alloc, ROWS, size),
        Ended::EndOfInput,
    );
    drop(input);
}

#[test]
fn sixteen_requests_in_one_piece(rt: HostRuntime) {
    for size in [22, 23, 32_767, 32_768] {
        check(&rt, rt.alloc(), size, None);
    }
}

#[test]
fn sixteen_requests_cut_at_drawn_places(rt: HostRuntime) {
    for size in [22, 23] {
        for number in 0..100 {
            check(&rt, rt.alloc(), size, Some(number));
        }
    }
    for size in [32_767, 32_768] {
        for number in 0..4 {
            check(&rt, rt.alloc(), size, Some(number));
        }
    }
}
