//! Requests and what is written to them, however the input is cut and whatever the writer takes.

use crate::keys::repeated;
use crate::pieces::{Sink, Source, came_to, check_run, cut_streams, run};
use connection::Ended;
use std::alloc::Global;
use std::process::Abort;
use std::sync::Wait;
use streams::Told;

pub(crate) const PING: &[u8] = b"*1\r\n$4\r\nPING\r\n";

/// SET of a value that looks like the beginning of a request: 31 bytes.
const SET: &[u8] = b"*3\r\n$3\r\nSET\r\n$1\r\nk\r\n$5\r\na\r\n*1\r\n";

const SET_AND_GET: &[u8] =
    b"*3\r\n$3\r\nSET\r\n$1\r\nk\r\n$5\r\na\r\n*1\r\n*2\r\n$3\r\nGET\r\n$1\r\nk\r\n*2\r\n$3\r\nGE";

const SET_AND_GET_ANSWER: &[u8] = b"+OK\r\n$5\r\na\r\n*1\r\n";

/// Input, text and ending of some connections.
const ROWS: &[(&[u8], &[u8], Ended)] = &[
    (PING, b"+PONG\r\n", Ended::EndOfInput),
    (b"", b"", Ended::EndOfInput),
    (SET_AND_GET, SET_AND_GET_ANSWER, Ended::EndOfInput),
    (
        b"*1\r\n$04\r\nPING\r\n",
        b"-ERR Protocol error: bad length\r\n",
        Ended::ProtocolFault,
    ),
    (b"*2\r\n$3\r\nGET\r\n$1\r\n", b"", Ended::EndOfInput),
    (
        b"*129",
        b"-ERR Protocol error: bad count\r\n",
        Ended::ProtocolFault,
    ),
    (
        b"*1\r\n$4\r\nPING\r\nPING\r\n",
        b"+PONG\r\n-ERR Protocol error: expected '*'\r\n",
        Ended::ProtocolFault,
    ),
    (
        b"*2\r\n$4\r\nping\r\n$2\r\nhi\r\n",
        b"$2\r\nhi\r\n",
        Ended::EndOfInput,
    ),
    (
        b"*4\r\n$3\r\nSET\r\n$1\r\nm\r\n$1\r\nv\r\n$2\r\nXX\r\n*2\r\n$3\r\nGET\r\n$1\r\nm\r\n*5\r\n$3\r\nSET\r\n$1\r\nm\r\n$1\r\nv\r\n$2\r\nNX\r\n$2\r\nXX\r\n",
        b"$-1\r\n$-1\r\n-ERR syntax error\r\n",
        Ended::EndOfInput,
    ),
    (
        b"*4\r\n$8\r\nSETRANGE\r\n$1\r\nk\r\n$1\r\n5\r\n$2\r\nHi\r\n*2\r\n$6\r\nSTRLEN\r\n$1\r\nk\r\n*4\r\n$8\r\nGETRANGE\r\n$1\r\nk\r\n$1\r\n5\r\n$2\r\n-1\r\n*2\r\n$6\r\nEXISTS\r\n$1\r\nj\r\n",
        b":7\r\n:7\r\n$2\r\nHi\r\n:0\r\n",
        Ended::EndOfInput,
    ),
    (
        b"*4\r\n$8\r\nSETRANGE\r\n$1\r\nk\r\n$5\r\n32766\r\n$1\r\nx\r\n*3\r\n$6\r\nAPPEND\r\n$1\r\nk\r\n$1\r\nx\r\n*3\r\n$6\r\nAPPEND\r\n$1\r\nk\r\n$1\r\ny\r\n*2\r\n$6\r\nSTRLEN\r\n$1\r\nk\r\n",
        b":32767\r\n:32768\r\n-ERR string is too long\r\n:32768\r\n",
        Ended::EndOfInput,
    ),
    (
        b"*1\r\n$5\r\nMULTI\r\n*4\r\n$8\r\nSETRANGE\r\n$1\r\na\r\n$5\r\n32767\r\n$1\r\nx\r\n*4\r\n$8\r\nSETRANGE\r\n$1\r\nb\r\n$5\r\n32767\r\n$1\r\nx\r\n*4\r\n$8\r\nSETRANGE\r\n$1\r\nc\r\n$5\r\n32767\r\n$1\r\nx\r\n*4\r\n$8\r\nSETRANGE\r\n$1\r\nd\r\n$5\r\n32767\r\n$1\r\nx\r\n*4\r\n$8\r\nSETRANGE\r\n$1\r\ne\r\n$5\r\n32767\r\n$1\r\nx\r\n*4\r\n$8\r\nSETRANGE\r\n$1\r\nf\r\n$5\r\n32473\r\n$1\r\nx\r\n*1\r\n$4\r\nEXEC\r\n*3\r\n$6\r\nEXISTS\r\n$1\r\na\r\n$1\r\nf\r\n",
        b"+OK\r\n+QUEUED\r\n+QUEUED\r\n+QUEUED\r\n+QUEUED\r\n+QUEUED\r\n+QUEUED\r\n*6\r\n:32768\r\n:32768\r\n:32768\r\n:32768\r\n:32768\r\n:32474\r\n:2\r\n",
        Ended::EndOfInput,
    ),
    (
        b"*1\r\n$5\r\nMULTI\r\n*4\r\n$8\r\nSETRANGE\r\n$1\r\na\r\n$5\r\n32767\r\n$1\r\nx\r\n*4\r\n$8\r\nSETRANGE\r\n$1\r\nb\r\n$5\r\n32767\r\n$1\r\nx\r\n*4\r\n$8\r\nSETRANGE\r\n$1\r\nc\r\n$5\r\n32767\r\n$1\r\nx\r\n*4\r\n$8\r\nSETRANGE\r\n$1\r\nd\r\n$5\r\n32767\r\n$1\r\nx\r\n*4\r\n$8\r\nSETRANGE\r\n$1\r\ne\r\n$5\r\n32767\r\n$1\r\nx\r\n*4\r\n$8\r\nSETRANGE\r\n$1\r\nf\r\n$5\r\n32474\r\n$1\r\nx\r\n*1\r\n$4\r\nEXEC\r\n*3\r\n$6\r\nEXISTS\r\n$1\r\na\r\n$1\r\nf\r\n",
        b"+OK\r\n+QUEUED\r\n+QUEUED\r\n+QUEUED\r\n+QUEUED\r\n+QUEUED\r\n+QUEUED\r\n-ERR command writes too much\r\n:0\r\n",
        Ended::EndOfInput,
    ),
    (
        b"*3\r\n$3\r\nSET\r\n$1\r\nn\r\n$19\r\n9223372036854775807\r\n*2\r\n$4\r\nINCR\r\n$1\r\nn\r\n*2\r\n$3\r\nGET\r\n$1\r\nn\r\n",
        b"+OK\r\n-ERR increment or decrement would overflow\r\n$19\r\n9223372036854775807\r\n",
        Ended::EndOfInput,
    ),
    (
        b"*3\r\n$3\r\nSET\r\n$1\r\na\r\n$1\r\n1\r\n*3\r\n$3\r\nDEL\r\n$1\r\na\r\n$1\r\na\r\n*3\r\n$3\r\nSET\r\n$1\r\nb\r\n$1\r\n1\r\n*3\r\n$6\r\nEXISTS\r\n$1\r\nb\r\n$1\r\nb\r\n",
        b"+OK\r\n:1\r\n+OK\r\n:2\r\n",
        Ended::EndOfInput,
    ),
    (
        b"*5\r\n$4\r\nMSET\r\n$1\r\na\r\n$1\r\n1\r\n$1\r\na\r\n$1\r\n2\r\n*3\r\n$4\r\nMGET\r\n$1\r\na\r\n$1\r\nz\r\n*5\r\n$6\r\nMSETNX\r\n$1\r\na\r\n$1\r\n3\r\n$1\r\ny\r\n$1\r\n4\r\n*2\r\n$6\r\nEXISTS\r\n$1\r\ny\r\n",
        b"+OK\r\n*2\r\n$1\r\n2\r\n$-1\r\n:0\r\n:0\r\n",
        Ended::EndOfInput,
    ),
    (
        b"*3\r\n$6\r\nAPPEND\r\n$1\r\nk\r\n$2\r\nab\r\n*3\r\n$6\r\nAPPEND\r\n$1\r\nk\r\n$1\r\nc\r\n*3\r\n$6\r\nGETSET\r\n$1\r\nk\r\n$1\r\nd\r\n*2\r\n$6\r\nGETDEL\r\n$1\r\nk\r\n*3\r\n$6\r\nDECRBY\r\n$1\r\nk\r\n$1\r\n3\r\n",
        b":2\r\n:3\r\n$3\r\nabc\r\n$1\r\nd\r\n:-3\r\n",
        Ended::EndOfInput,
    ),
    (
        b"*1\r\n$4\r\nPING\r\n*1\r\n$4\r\nquit\r\n*1\r\n$4\r\nPING\r\n",
        b"+PONG\r\n+OK\r\n",
        Ended::Quit,
    ),
    (
        b"*2\r\n$7\r\nCOMMAND\r\n$4\r\nDOCS\r\n*1\r\n$4\r\nPING\r\n",
        b"-ERR unknown command\r\n+PONG\r\n",
        Ended::EndOfInput,
    ),
    (
        b"*1\r\n$3\r\nGET\r\n*1\r\n$4\r\nPING\r\n",
        b"-ERR wrong number of arguments\r\n+PONG\r\n",
        Ended::EndOfInput,
    ),
    (
        b"*3\r\n$4\r\nPING\r\n$1\r\na\r\n$1\r\nb\r\n",
        b"-ERR wrong number of arguments\r\n",
        Ended::EndOfInput,
    ),
    (
        b"*3\r\n$3\r\nset\r\n$1\r\na\r\n$0\r\n\r\n*2\r\n$3\r\ngEt\r\n$1\r\na\r\n",
        b"+OK\r\n$0\r\n\r\n",
        Ended::EndOfInput,
    ),
    (
        b"*1\r\n$4\r\nPINGxx",
        b"-ERR Protocol error: missing line end\r\n",
        Ended::ProtocolFault,
    ),
    (
        b"*1\r\n$5\r\nMULTI\r\n*3\r\n$3\r\nSET\r\n$1\r\na\r\n$1\r\n1\r\n*2\r\n$4\r\nINCR\r\n$1\r\na\r\n*2\r\n$3\r\nGET\r\n$1\r\na\r\n*1\r\n$4\r\nEXEC\r\n",
        b"+OK\r\n+QUEUED\r\n+QUEUED\r\n+QUEUED\r\n*3\r\n+OK\r\n:2\r\n$1\r\n2\r\n",
        Ended::EndOfInput,
    ),
    (
        b"*1\r\n$5\r\nMULTI\r\n*1\r\n$3\r\nGET\r\n*3\r\n$3\r\nSET\r\n$1\r\na\r\n$1\r\n1\r\n*1\r\n$4\r\nEXEC\r\n*2\r\n$3\r\nGET\r\n$1\r\na\r\n",
        b"+OK\r\n-ERR wrong number of arguments\r\n+QUEUED\r\n-EXECABORT transaction discarded because of earlier errors\r\n$-1\r\n",
        Ended::EndOfInput,
    ),
    (
        b"*1\r\n$5\r\nMULTI\r\n*3\r\n$3\r\nSET\r\n$1\r\na\r\n$1\r\nx\r\n*2\r\n$4\r\nINCR\r\n$1\r\na\r\n*1\r\n$4\r\nEXEC\r\n*2\r\n$3\r\nGET\r\n$1\r\na\r\n",
        b"+OK\r\n+QUEUED\r\n+QUEUED\r\n*2\r\n+OK\r\n-ERR value is not an integer or out of range\r\n$1\r\nx\r\n",
        Ended::EndOfInput,
    ),
    (
        b"*3\r\n$3\r\nSET\r\n$1\r\nk\r\n$1\r\nv\r\n*2\r\n$5\r\nWATCH\r\n$1\r\nk\r\n*3\r\n$3\r\nSET\r\n$1\r\nk\r\n$1\r\nv\r\n*1\r\n$5\r\nMULTI\r\n*1\r\n$4\r\nPING\r\n*1\r\n$4\r\nEXEC\r\n*1\r\n$5\r\nMULTI\r\n*1\r\n$4\r\nPING\r\n*1\r\n$4\r\nEXEC\r\n",
        b"+OK\r\n+OK\r\n+OK\r\n+OK\r\n+QUEUED\r\n*-1\r\n+OK\r\n+QUEUED\r\n*1\r\n+PONG\r\n",
        Ended::EndOfInput,
    ),
    (
        b"*1\r\n$5\r\nMULTI\r\n*1\r\n$5\r\nMULTI\r\n*2\r\n$5\r\nWATCH\r\n$1\r\nk\r\n*1\r\n$4\r\nEXEC\r\n*1\r\n$4\r\nEXEC\r\n*1\r\n$7\r\nDISCARD\r\n",
        b"+OK\r\n-ERR MULTI inside MULTI\r\n-ERR WATCH inside MULTI\r\n*0\r\n-ERR EXEC without MULTI\r\n-ERR DISCARD without MULTI\r\n",
        Ended::EndOfInput,
    ),
    (
        b"*1\r\n$5\r\nMULTI\r\n*3\r\n$3\r\nSET\r\n$1\r\na\r\n$1\r\n1\r\n*1\r\n$4\r\nQUIT\r\n*2\r\n$3\r\nGET\r\n$1\r\na\r\n",
        b"+OK\r\n+QUEUED\r\n+OK\r\n",
        Ended::Quit,
    ),
    (
        b"*1\r\n$5\r\nMULTI\r\n*3\r\n$3\r\nSET\r\n$1\r\na\r\n$1\r\n1\r\n*1\r\n$7\r\nDISCARD\r\n*2\r\n$3\r\nGET\r\n$1\r\na\r\n*1\r\n$4\r\nEXEC\r\n",
        b"+OK\r\n+QUEUED\r\n+OK\r\n$-1\r\n-ERR EXEC without MULTI\r\n",
        Ended::EndOfInput,
    ),
    (
        b"*2\r\n$5\r\nWATCH\r\n$1\r\nk\r\n*1\r\n$5\r\nMULTI\r\n*3\r\n$3\r\nSET\r\n$1\r\nk\r\n$1\r\nv\r\n*1\r\n$4\r\nEXEC\r\n*2\r\n$3\r\nGET\r\n$1\r\nk\r\n",
        b"+OK\r\n+OK\r\n+QUEUED\r\n*1\r\n+OK\r\n$1\r\nv\r\n",
        Ended::EndOfInput,
    ),
    (
        b"*3\r\n$3\r\nSET\r\n$1\r\nk\r\n$1\r\nv\r\n*2\r\n$5\r\nWATCH\r\n$1\r\nk\r\n*2\r\n$3\r\nDEL\r\n$1\r\nk\r\n*3\r\n$3\r\nSET\r\n$1\r\nk\r\n$1\r\nv\r\n*1\r\n$7\r\nUNWATCH\r\n*1\r\n$5\r\nMULTI\r\n*1\r\n$7\r\nUNWATCH\r\n*1\r\n$4\r\nEXEC\r\n",
        b"+OK\r\n+OK\r\n:1\r\n+OK\r\n+OK\r\n+OK\r\n+QUEUED\r\n*1\r\n+OK\r\n",
        Ended::EndOfInput,
    ),
    (
        b"*3\r\n$3\r\nSET\r\n$1\r\na\r\n$1\r\n1\r\n*3\r\n$6\r\nRENAME\r\n$1\r\na\r\n$1\r\nb\r\n*3\r\n$4\r\nMGET\r\n$1\r\na\r\n$1\r\nb\r\n*3\r\n$6\r\nRENAME\r\n$1\r\na\r\n$1\r\nb\r\n",
        b"+OK\r\n+OK\r\n*2\r\n$-1\r\n$1\r\n1\r\n-ERR no such key\r\n",
        Ended::EndOfInput,
    ),
    (
        b"*4\r\n$3\r\nSET\r\n$1\r\na\r\n$1\r\n1\r\n$3\r\nGET\r\n*4\r\n$3\r\nSET\r\n$1\r\na\r\n$1\r\n2\r\n$3\r\nget\r\n*5\r\n$3\r\nSET\r\n$1\r\na\r\n$1\r\n3\r\n$3\r\nGET\r\n$2\r\nNX\r\n*2\r\n$3\r\nGET\r\n$1\r\na\r\n*5\r\n$3\r\nSET\r\n$1\r\na\r\n$1\r\n4\r\n$3\r\nGET\r\n$3\r\nGET\r\n",
        b"$-1\r\n$1\r\n1\r\n$1\r\n2\r\n$1\r\n2\r\n-ERR syntax error\r\n",
        Ended::EndOfInput,
    ),
    (
        b"*3\r\n$3\r\nSET\r\n$1\r\na\r\n$1\r\n1\r\n*2\r\n$5\r\nWATCH\r\n$1\r\na\r\n*3\r\n$6\r\nRENAME\r\n$1\r\na\r\n$1\r\na\r\n*1\r\n$5\r\nMULTI\r\n*3\r\n$6\r\nRENAME\r\n$1\r\nz\r\n$1\r\ny\r\n*1\r\n$4\r\nEXEC\r\n",
        b"+OK\r\n+OK\r\n+OK\r\n+OK\r\n+QUEUED\r\n*1\r\n-ERR no such key\r\n",
        Ended::EndOfInput,
    ),
    (
        b"*1\r\n$5\r\nMULTI\r\n*3\r\n$3\r\nSET\r\n$1\r\na\r\n$1\r\n1\r\n*3\r\n$6\r\nRENAME\r\n$1\r\na\r\n$1\r\nb\r\n*5\r\n$3\r\nSET\r\n$1\r\nb\r\n$1\r\n2\r\n$2\r\nXX\r\n$3\r\nGET\r\n*1\r\n$4\r\nEXEC\r\n*3\r\n$4\r\nMGET\r\n$1\r\na\r\n$1\r\nb\r\n",
        b"+OK\r\n+QUEUED\r\n+QUEUED\r\n+QUEUED\r\n*3\r\n+OK\r\n+OK\r\n$1\r\n1\r\n*2\r\n$-1\r\n$1\r\n2\r\n",
        Ended::EndOfInput,
    ),
    (
        b"*3\r\n$3\r\nSET\r\n$1\r\na\r\n$1\r\n1\r\n*2\r\n$5\r\nWATCH\r\n$1\r\na\r\n*3\r\n$6\r\nRENAME\r\n$1\r\na\r\n$1\r\nb\r\n*1\r\n$5\r\nMULTI\r\n*1\r\n$4\r\nPING\r\n*1\r\n$4\r\nEXEC\r\n",
        b"+OK\r\n+OK\r\n+OK\r\n+OK\r\n+QUEUED\r\n*-1\r\n",
        Ended::EndOfInput,
    ),
    (
        b"*3\r\n$3\r\nSET\r\n$1\r\na\r\n$1\r\n1\r\n*2\r\n$5\r\nWATCH\r\n$1\r\nb\r\n*3\r\n$6\r\nRENAME\r\n$1\r\na\r\n$1\r\nb\r\n*1\r\n$5\r\nMULTI\r\n*1\r\n$4\r\nPING\r\n*1\r\n$4\r\nEXEC\r\n",
        b"+OK\r\n+OK\r\n+OK\r\n+OK\r\n+QUEUED\r\n*-1\r\n",
        Ended::EndOfInput,
    ),
    (
        b"*3\r\n$5\r\nWATCH\r\n$1\r\na\r\n$1\r\nb\r\n*3\r\n$6\r\nRENAME\r\n$1\r\na\r\n$1\r\nb\r\n*1\r\n$5\r\nMULTI\r\n*1\r\n$4\r\nPING\r\n*1\r\n$4\r\nEXEC\r\n",
        b"+OK\r\n-ERR no such key\r\n+OK\r\n+QUEUED\r\n*1\r\n+PONG\r\n",
        Ended::EndOfInput,
    ),
];

/// The rows answer so however the input is cut, whatever the writer takes at a time, and where calls
/// are interrupted. None meets a fault, and nothing is kept back.
#[test]
fn ample_memory_answers(rt: HostRuntime) {
    let alloc = rt.alloc();
    for &(input, text, ended) in ROWS {
        for most in [16_384, 31, 7, 1] {
            for interrupts in [false, true] {
                let streams = cut_streams(&rt, alloc, input, most, interrupts);
                check_run(&rt, alloc, streams, text, ended);
            }
        }
    }
}

/// The rows answer so where the first read gives any beginning of the input.
#[test]
fn rows_that_are_cut_in_two(rt: HostRuntime) {
    let alloc = rt.alloc();
    for &(input, text, ended) in ROWS {
        for at in 0..input.len() {
            let mut source = Source::new(input, 16_384);
            source.cut_after = at;
            let sink = Sink::new(alloc, 16_384).expect(&rt, "memory for a sink");
            check_run(&rt, alloc, (source, sink), text, ended);
        }
    }
}

/// How many writes the replies to 64 requests take where a read gives at most so many bytes.
fn writes_of(rt: &(impl Abort + Wait), alloc: Global, most: usize) -> u64 {
    let input = repeated(alloc, PING, 64, b"").expect(rt, "memory for a text");
    let sink = Sink::new(alloc, 16_384).expect(rt, "memory for a sink");
    let outcome = run(rt, alloc, Source::new(&input, most), sink).expect(
        rt,
        "memory for the connection",
    );
    let answer = outcome.writes;
    drop(outcome);
    drop(input);
    answer
}

/// The replies of one read take one write.
#[test]
fn one_write_for_one_read(rt: HostRuntime) {
    let alloc = rt.alloc();
    let one = writes_of(&rt, alloc, 16_384);
    let many = writes_of(&rt, alloc, PING.len());
    assert_eq!(rt; (one, many), (1, 64));
}

/// A read that fails after a complete request: it is answered, and the answer is written.
#[test]
fn a_read_that_fails(rt: HostRuntime) {
    let alloc = rt.alloc();
    let mut source = Source::new(SET_AND_GET, 16_384);
    source.fails_after = Some(SET.len());
    let outcome = run(
        &rt,
        alloc,
        source,
        Sink::new(alloc, 16_384).expect(&rt, "memory for a sink"),
    )
    .expect(&rt, "memory for the connection");
    assert!(rt; came_to(&outcome, b"+OK\r\n", Ended::ReadFailed));
    assert!(rt; outcome.told == (Told::Failure, Told::Nothing));
    drop(outcome);
}

/// Asserts what is written where writes fail after so many bytes.
fn check_cut<R: Abort + Wait>(rt: &R, alloc: Global, input: &[u8], text: &[u8], most: usize) {
    let mut sink = Sink::new(alloc, most).expect(rt, "memory for a sink");
    sink.fails_after = Some(text.len());
    let outcome = run(rt, alloc, Source::new(input, 16_384), sink).expect(
        rt,
        "memory for the connection",
    );
    assert!(rt; came_to(&outcome, text, Ended::WriteFailed), "{input:?}");
    assert!(rt; outcome.told == (Told::Nothing, Told::Failure), "{input:?}");
    drop(outcome);
}

/// A write that fails after each number of bytes: a beginning of the text is written.
#[test]
fn a_write_that_fails(rt: HostRuntime) {
    for &(input, text, _) in ROWS {
        for room in 0..text.len() {
            for most in [16_384, 1] {
                check_cut(&rt, rt.alloc(), input, &text[..room], most);
            }
        }
    }
}

/// A write that takes no byte has failed.
#[test]
fn a_write_that_takes_nothing(rt: HostRuntime) {
    let alloc = rt.alloc();
    for &(input, text, ended) in ROWS {
        let ended = if text.is_empty() {
            ended
        } else {
            Ended::WriteFailed
        };
        let streams = (
            Source::new(input, 16_384),
            Sink::new(alloc, 0).expect(&rt, "memory for a sink"),
        );
        check_run(&rt, alloc, streams, b"", ended);
    }
}

/// What comes after the first reply of a text: that reply, or the out-of-memory line.
pub(crate) fn after_reply<'a>(text: &'a [u8], reply: &[u8]) -> Option<(bool, &'a [u8])> {
    if let Some(rest) = text.strip_prefix(reply) {
        return Some((true, rest));
    }
    match text.strip_prefix(b"-OOM out of memory\r\n") {
        Some(rest) => Some((false, rest)),
        None => None,
    }
}

/// How many of the requests below are answered, each with its reply or the out-of-memory line;
/// `None` where a text is none of these.
fn answered_below(text: &[u8]) -> Option<usize> {
    if text.is_empty() {
        return Some(0);
    }
    let (stored, rest) = after_reply(text, b"+OK\r\n")?;
    if rest.is_empty() {
        return Some(1);
    }
    let value: &[u8] = if stored {
        b"$30\r\nvvvvvvvvvvvvvvvvvvvvvvvvvvvvvv\r\n"
    } else {
        b"$-1\r\n"
    };
    let (_, rest) = after_reply(rest, value)?;
    if rest.is_empty() {
        return Some(2);
    }
    let rest = rest.strip_prefix(b"$25\r\nttttttttttttttttttttttttt\r\n")?;
    if rest.is_empty() { Some(3) } else { None }
}

/// Where an allocation is refused (`rt try --test --fail-alloc`), each request has its reply or the
/// out-of-memory line, in order, or the connection ends before it. No reply is lost or doubled.
#[test]
fn a_refused_allocation(rt: HostRuntime) {
    let alloc = rt.alloc();
    let input =
        b"*3\r\n$3\r\nSET\r\n$24\r\nkkkkkkkkkkkkkkkkkkkkkkkk\r\n$30\r\nvvvvvvvvvvvvvvvvvvvvvvvvvvvvvv\r\n*2\r\n$3\r\nGET\r\n$24\r\nkkkkkkkkkkkkkkkkkkkkkkkk\r\n*2\r\n$4\r\nPING\r\n$25\r\nttttttttttttttttttttttttt\r\n";
    let Ok(sink) = Sink::new(alloc, 16_384) else {
        return;
    };
    let Ok(outcome) = run(&rt, alloc, Source::new(input, 100), sink) else {
        return;
    };
    let ended = match answered_below(&outcome.text) {
        Some(3) => Ended::EndOfInput,
        Some(_) => Ended::NoMemory,
        None => panic!(rt; "another text"),
    };
    assert_eq!(rt; outcome.ended, ended);
}

/// More requests than a block has bytes for, and then a part of one with most of a long word.
fn many_bytes(rt: &impl Abort, alloc: Global) -> Vec<u8> {
    let part = repeated(alloc, b"*2\r\n$4\r\nECHO\r\n$32768\r\n", 1, b"").expect(
        rt,
        "memory for a text",
    );
    let word = repeated(alloc, b"xxxxxxxx", 4_000, b"").expect(rt, "memory for a text");
    let part = repeated(alloc, &part, 1, &word).expect(rt, "memory for a text");
    let answer = repeated(alloc, PING, 5_000, &part).expect(rt, "memory for a text");
    drop(part);
    drop(word);
    answer
}

/// A client that sends one byte at a time. Pieces of one byte share a block, and blocks are used again.
#[test]
fn many_pieces_of_one_byte(rt: HostRuntime) {
    let alloc = rt.alloc();
    let input = many_bytes(&rt, alloc);
    let text = repeated(alloc, b"+PONG\r\n", 5_000, b"").expect(&rt, "memory for a text");
    let streams = (
        Source::new(&input, 1),
        Sink::new(alloc, 16_384).expect(&rt, "memory for a sink"),
    );
    check_run(&rt, alloc, streams, &text, Ended::EndOfInput);
    drop(text);
    drop(input);
}

/// The numbers by which endings are listed.
#[test]
fn endings_have_numbers(rt: HostRuntime) {
    let all = [
        Ended::EndOfInput,
        Ended::Quit,
        Ended::ProtocolFault,
        Ended::ReadFailed,
        Ended::WriteFailed,
        Ended::NoMemory,
    ];
    for (place, ended) in all.into_iter().enumerate() {
        assert_eq!(rt; usize::from(ended.number()), place + 1);
    }
}
