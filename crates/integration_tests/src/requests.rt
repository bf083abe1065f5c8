//! Requests over HTTP and their answers, byte for byte: in one piece and in one-byte pieces, over a keeper of lists and a desk, and over
//! writers that fail. The reader counts: no read follows the bytes that decide the answer.
use crate::stores::{desk_over, in_memory};
use crate::streams::{Narrow, Trickle};
use plant_desk::{Answer, Keeper, ListKeeper, Question};
use plant_http::{ServeFault, Served, serve_one};
use plant_http_requests::{Now, Profile, Routes, Terms};
use std::alloc::AllocGlobal;
use std::process::Abort;
use std::test::Fail;

/// The question of the desk.
const DESK: &[u8] = b"GET /v1/desk HTTP/1.1\r\nHost: a\r\n\r\n";

/// Its answer from a new desk.
const NEW: &[u8] =
    b"HTTP/1.1 200 OK\r\nContent-Type: application/json\r\nContent-Length: 20\r\nConnection: close\r\n\r\n{\"schema\":4,\"seq\":0}";

/// Its answer after one command.
const ONE: &[u8] =
    b"HTTP/1.1 200 OK\r\nContent-Type: application/json\r\nContent-Length: 20\r\nConnection: close\r\n\r\n{\"schema\":4,\"seq\":1}";

/// A command that a new desk accepts.
const CLASS: &[u8] =
    b"POST /v1/commands HTTP/1.1\r\nHost: a\r\nContent-Length: 72\r\n\r\n{\"at\":100,\"by\":\"anna\",\"do\":\"add_class\",\"class\":\"RAW\",\"name\":\"Raw goods\"}";

/// Its answer.
const ACCEPTED: &[u8] =
    b"HTTP/1.1 200 OK\r\nContent-Type: application/json\r\nContent-Length: 8\r\nConnection: close\r\n\r\n{\"ok\":1}";

/// The answer to a request that is cut, or has no Host.
const BAD: &[u8] =
    b"HTTP/1.1 400 Bad Request\r\nContent-Type: application/json\r\nContent-Length: 14\r\nConnection: close\r\n\r\n{\"status\":400}";

/// Requests that a new desk is sent one after the other, each with its answer. No read follows the last of their bytes, though a body that
/// their head announces is never sent.
const REQUESTS: [(&[u8], &[u8]); 15] = [
    (DESK, NEW),
    (
        b"HEAD /v1/desk HTTP/1.1\r\nHost: a\r\n\r\n",
        b"HTTP/1.1 200 OK\r\nContent-Type: application/json\r\nContent-Length: 20\r\nConnection: close\r\n\r\n",
    ),
    (
        b"POST /v1/commands HTTP/1.1\r\nHost: a\r\nContent-Length: 98\r\n\r\n{\"at\":100,\"by\":\"anna\",\"do\":\"add_definition\",\"def\":\"SUGAR\",\"class\":\"RAW\",\"name\":\"Sugar\",\"unit\":\"g\"}",
        b"HTTP/1.1 409 Conflict\r\nContent-Type: application/json\r\nContent-Length: 35\r\nConnection: close\r\n\r\n{\"name\":\"UnknownClass\",\"refused\":4}",
    ),
    (
        b"GET /v1/lots/L-9 HTTP/1.1\r\nHost: a\r\n\r\n",
        b"HTTP/1.1 404 Not Found\r\nContent-Type: application/json\r\nContent-Length: 33\r\nConnection: close\r\n\r\n{\"name\":\"UnknownLot\",\"refused\":9}",
    ),
    (
        b"POST /v1/lots/l-1 HTTP/1.1\r\nHost: a\r\nContent-Length: 7\r\n\r\n",
        b"HTTP/1.1 404 Not Found\r\nContent-Type: application/json\r\nContent-Length: 14\r\nConnection: close\r\n\r\n{\"status\":404}",
    ),
    (
        b"GET /v1/recalls/RC-1 HTTP/1.1\r\nHost: a\r\n\r\n",
        b"HTTP/1.1 404 Not Found\r\nContent-Type: application/json\r\nContent-Length: 37\r\nConnection: close\r\n\r\n{\"name\":\"UnknownRecall\",\"refused\":33}",
    ),
    (
        b"DELETE /v1/desk HTTP/1.1\r\nHost: a\r\nContent-Length: 5\r\n\r\n",
        b"HTTP/1.1 405 Method Not Allowed\r\nContent-Type: application/json\r\nContent-Length: 14\r\nConnection: close\r\nAllow: GET, HEAD\r\n\r\n{\"status\":405}",
    ),
    (
        b"POST /v1/commands HTTP/1.1\r\nHost: a\r\nContent-Length: 262145\r\n\r\n",
        b"HTTP/1.1 413 Payload Too Large\r\nContent-Type: application/json\r\nContent-Length: 14\r\nConnection: close\r\n\r\n{\"status\":413}",
    ),
    (
        b"POST /v1/commands HTTP/1.1\r\nHost: a\r\n\r\n",
        b"HTTP/1.1 411 Length Required\r\nContent-Type: application/json\r\nContent-Length: 14\r\nConnection: close\r\n\r\n{\"status\":411}",
    ),
    (
        b"POST /v1/commands HTTP/1.1\r\nContent-Length: 72\r\n\r\n",
        BAD,
    ),
    (
        b"POST /v1/commands HTTP/1.1\r\nHost: a\r\nTransfer-Encoding: chunked\r\n\r\n",
        b"HTTP/1.1 501 Not Implemented\r\nContent-Type: application/json\r\nContent-Length: 14\r\nConnection: close\r\n\r\n{\"status\":501}",
    ),
    (
        b"POST /v1/orders HTTP/1.1\r\nHost: a\r\nDesk-At: 7\r\nContent-Length: 6\r\n\r\norders",
        b"HTTP/1.1 400 Bad Request\r\nContent-Type: application/json\r\nContent-Length: 24\r\nConnection: close\r\n\r\n{\"csv\":\"Header\",\"row\":0}",
    ),
    (b"GET /v1/desk HTTP/1.0\n\n", NEW),
    (CLASS, ACCEPTED),
    (DESK, ONE),
];

/// Requests that end early, so that one more read finds their end, and what is answered.
const CUT: [(&[u8], &[u8]); 3] = [
    (b"", b""),
    (b"GET /v1/desk HTTP/1.1\r\nHost", BAD),
    (
        b"POST /v1/commands HTTP/1.1\r\nHost: a\r\nContent-Length: 72\r\n\r\n{\"at\":100}",
        BAD,
    ),
];

/// How a request ended, over a writer with so many writes, and what was written.
fn served<K: Keeper>(
    rt: &impl AllocGlobal,
    keeper: &mut K,
    request: &mut Trickle<'_>,
    writes: u64,
    fails: bool,
) -> Result<(Result<Served, ServeFault>, Vec<u8>), Fail> {
    let Ok(routes) = Routes::new(rt.alloc()) else {
        return Err(Fail::from("no routes"));
    };
    let mut writer = Narrow {
        held: Vec::new(rt.alloc()),
        writes,
        fails,
    };
    let end = serve_one(
        rt.alloc(),
        &routes,
        Terms {
            profile: Profile::Open,
            operator_field: None,
            needs_references: false,
            most_ahead: None,
            name: &None,
            language: &None,
            now: Now::unknown(),
        },
        request,
        &mut writer,
        keeper,
    );
    Ok((end, writer.held))
}

/// The request in one piece or in one-byte pieces, with so many reads more.
fn pieces(request: &[u8], is_slow: bool, more: u64) -> Trickle<'_> {
    let (most, reads) = if is_slow {
        (1, request.len() as u64)
    } else {
        (512, 1)
    };
    Trickle {
        rest: request,
        most,
        reads: reads.saturating_add(more),
    }
}

/// Checks what requests are answered, with so many reads beyond those of their bytes.
fn check_answers<K: Keeper>(
    rt: &(impl Abort + AllocGlobal),
    keeper: &mut K,
    requests: &[(&[u8], &[u8])],
    is_slow: bool,
    more: u64,
) -> Result<(), Fail> {
    for (request, answer) in requests {
        let mut reader = pieces(request, is_slow, more);
        let (end, text) = served(rt, keeper, &mut reader, u64::MAX, false)?;
        assert!(rt; end.is_ok());
        assert_eq!(rt; text.as_slice(), *answer);
        assert!(rt; reader.rest.is_empty());
    }
    Ok(())
}

/// Checks the answers of a new desk.
fn check_new_desk<K: Keeper>(
    rt: &(impl Abort + AllocGlobal),
    keeper: &mut K,
    is_slow: bool,
) -> Result<(), Fail> {
    check_answers(rt, keeper, &CUT, is_slow, 1)?;
    check_answers(rt, keeper, &REQUESTS, is_slow, 0)
}

#[test]
fn keeper_of_lists_answers_byte_for_byte(rt: HostRuntime) -> Result<(), Fail> {
    check_new_desk(&rt, &mut ListKeeper::new(rt.alloc()), false)?;
    check_new_desk(&rt, &mut ListKeeper::new(rt.alloc()), true)
}

#[test]
fn desk_answers_byte_for_byte(rt: HostRuntime) -> Result<(), Fail> {
    check_new_desk(
        &rt,
        &mut desk_over(rt.alloc(), in_memory(rt.alloc())?)?,
        false,
    )?;
    check_new_desk(
        &rt,
        &mut desk_over(rt.alloc(), in_memory(rt.alloc())?)?,
        true,
    )
}

/// How many commands a keeper of a desk has accepted.
fn accepted<K: Keeper>(keeper: &mut K) -> Result<u64, Fail> {
    match &keeper.ask(&Question::Desk)? {
        Answer::Desk { seq, .. } => Ok(*seq),
        _ => Err(Fail::from("another answer")),
    }
}

/// Checks that a writer which fails after any number of writes takes a prefix of the answer, and that the command is
/// executed once.
fn check_failed_writes(rt: &(impl Abort + AllocGlobal), fails: bool) -> Result<(), Fail> {
    for writes in 0..100 {
        let mut keeper = ListKeeper::new(rt.alloc());
        let mut reader = pieces(CLASS, false, 0);
        let (end, text) = served(rt, &mut keeper, &mut reader, writes, fails)?;
        assert!(rt; ACCEPTED.starts_with(text.as_slice()));
        assert_eq!(rt; accepted(&mut keeper)?, 1);
        if end.is_ok() {
            assert_eq!(rt; text.as_slice(), ACCEPTED);
            return Ok(());
        }
        assert!(rt; matches!(end, Err(ServeFault::Write)));
    }
    Err(Fail::from("no answer was written whole"))
}

#[test]
fn failed_write_leaves_a_front_of_the_answer(rt: HostRuntime) -> Result<(), Fail> {
    check_failed_writes(&rt, true)?;
    check_failed_writes(&rt, false)
}

/// Checks that a read which fails before the request is whole executes nothing and writes nothing.
fn check_failed_reads(rt: &(impl Abort + AllocGlobal)) -> Result<(), Fail> {
    for reads in 0..CLASS.len() as u64 {
        let mut keeper = ListKeeper::new(rt.alloc());
        let mut reader = Trickle {
            rest: CLASS,
            most: 1,
            reads,
        };
        let (end, text) = served(rt, &mut keeper, &mut reader, u64::MAX, false)?;
        assert!(rt; matches!(end, Err(ServeFault::Read)));
        assert!(rt; text.is_empty());
        assert_eq!(rt; accepted(&mut keeper)?, 0);
    }
    Ok(())
}

#[test]
fn failed_read_executes_nothing(rt: HostRuntime) -> Result<(), Fail> {
    check_failed_reads(&rt)
}
