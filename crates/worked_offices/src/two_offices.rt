// Two offices in memory, to which a candidate sends the same request.
use crate::given::{SMALL, SOLUTION};
use office_http::{ReplyAndShares, Request, ask_two_offices};
use std::process::Abort;
use std::test::Fail;

// Candidate 2 has exams 0 and 1, two in a row on one day: penalties 7 and 1.
const PAGE: &[u8] = b"{\"candidate\":2,\"exams\":[\
{\"date\":\"2005-04-15\",\"exam\":0,\"period\":0,\"room\":0,\"seat\":2,\"start\":\"09:30:00\",\"state\":\"seated\"},\
{\"date\":\"2005-04-15\",\"exam\":1,\"period\":1,\"room\":0,\"seat\":1,\"start\":\"14:00:00\",\"state\":\"seated\"}\
],\"penalty\":8}";

// A request of the office.
fn by_office(method: &'static str, target: &'static str, body: &'static [u8]) -> Request<'static> {
    Request {
        method,
        target,
        caller: Some(b"office"),
        body,
    }
}

// Fails unless no request was missed, the reply is the page of candidate 2, and the shares add up to
// this penalty.
fn assert_said<R: Abort>(rt: &R, said: &ReplyAndShares, missed: &[bool], penalty: u64) {
    assert_eq!(rt; said.missed.as_slice(), missed);
    assert_eq!(rt; said.reply.body.bytes(), PAGE);
    let total = match &said.shares {
        Some(shares) => shares.parts().map(|parts| parts.total()),
        None => None,
    };
    assert_eq!(rt; total, Some(penalty));
}

// In the second office exam 3 has moved to another day and room, which candidate 1 sees.
#[test]
fn publish_twice(rt: HostRuntime) -> Result<(), Fail> {
    let load = by_office("PUT", "/instance", SMALL);
    let draft = by_office("PUT", "/drafts/1", SOLUTION);
    let publish = by_office("POST", "/drafts/1/publish", b"");
    let move_3 = by_office(
        "POST",
        "/drafts/1/exams/3/move",
        b"{\"period\":3,\"room\":1}",
    );
    let asked = Request {
        method: "GET",
        target: "/me",
        caller: Some(b"cand:2"),
        body: b"",
    };
    let once = [load, draft, publish];
    let twice = [load, draft, publish, asked, move_3, publish];
    let Ok((one, other)) = ask_two_offices(rt.alloc(), &once, &twice, &asked) else {
        return Err("not asked")?;
    };
    assert_said(&rt, &one, &[false; 3], 37);
    assert_said(&rt, &other, &[false; 6], 44);
    Ok(())
}
