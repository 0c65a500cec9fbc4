// The commands of requests, and the values of their bodies.
use crate::given::assert_same;
use office_policy::{Body, Command, Denial};
use office_requests::{
    Fault, FixedError, Page, Refusal, Reply, Request, Routes, allow, dept_body, fault_reply,
    place_body, read_request, text_body, unavailable,
};
use std::alloc::{AllocError, Global};
use std::test::Fail;

#[test]
fn paths_lead_to_pages(rt: HostRuntime) -> Result<(), Fail> {
    let routes = Routes::new(rt.alloc())?;
    let cases = [
        ("/me", Some(Page::Me)),
        ("/me/", None),
        ("/ME", None),
        ("me", None),
        ("//me", None),
        ("/me?x=1", None),
        ("/me/exam/7", Some(Page::MyExam)),
        ("/me/exam/x", Some(Page::MyExam)),
        ("/me/exam/", None),
        ("/me/exam", None),
        ("/me/penalty", Some(Page::MyPenalty)),
        ("/drafts", None),
        ("/drafts/1", Some(Page::Draft)),
        ("/drafts/1/", None),
        ("/drafts//penalty", None),
        ("/drafts/1/penalty", Some(Page::DraftPenalty)),
        ("/drafts/1/exams/2", Some(Page::Slot)),
        ("/drafts/1/exams/2/place", Some(Page::Place)),
        ("/drafts/1/exams/2/places", Some(Page::DraftPlaces)),
        ("/drafts/1/exams/2/seats", None),
        ("/drafts/1/swap/2", None),
        ("/drafts/1/swap/2/3", Some(Page::Swap)),
        ("/publication/rooms", Some(Page::PublicationRooms)),
        ("/publication/seats", Some(Page::PublicationSeats)),
        ("/publication/seats?exam=0", None),
        ("/publication/seat", None),
        ("/batches/7", Some(Page::Batch)),
        ("/", None),
        ("", None),
    ];
    for (path, page) in cases {
        assert_same(&rt, routes.page(path), page, path);
    }
    Ok(())
}

// Returns why the request of this caller is refused, if it is.
fn refusal<'a>(
    alloc: Global,
    routes: &Routes,
    caller: Option<&'a str>,
    method: &'a str,
    target: &'a str,
) -> Option<Refusal> {
    let request = Request {
        method,
        target,
        caller: caller.map(str::as_bytes),
        body: b"",
    };
    match read_request(alloc, routes, &request) {
        Ok(_) => None,
        Err(refusal) => Some(refusal),
    }
}

#[test]
fn refusals_in_order(rt: HostRuntime) -> Result<(), Fail> {
    let routes = Routes::new(rt.alloc())?;
    let (nobody, no_candidate) = (Some(Refusal::Caller), Some(Refusal::Candidate));
    let (publication, draft) = (
        Refusal::Method(Page::Publication),
        Refusal::Method(Page::Draft),
    );
    let cases = [
        (Some("office"), "GET", "/drafts/123456789", None),
        (Some("office"), "POST", "/publication", Some(publication)),
        (Some("office"), "GET", "/me/exam/x", Some(Refusal::Path)),
        (
            Some("office"),
            "GET",
            "/drafts/1234567890",
            Some(Refusal::Path),
        ),
        (
            Some("office"),
            "GET",
            "/drafts/0000000001",
            Some(Refusal::Path),
        ),
        (Some("office"), "PATCH", "/drafts/x", Some(Refusal::Path)),
        (Some("office"), "PATCH", "/drafts/1", Some(draft)),
        (Some("office"), "get", "/drafts/1", Some(draft)),
        (Some("office"), "HEAD", "/drafts/1", Some(draft)),
        (Some("dept:3"), "PUT", "/instance", None),
        (Some("dept:3"), "GET", "/me", None),
        (Some("dept:0"), "GET", "/nowhere", nobody),
        (Some("cand:1000000000"), "GET", "/me", nobody),
        (None, "GET", "/me", nobody),
        (Some("cand:1"), "POST", "/publication", no_candidate),
        (Some("cand:2"), "GET", "/drafts/8", no_candidate),
        (Some("cand:2"), "GET", "/me/exam/x", no_candidate),
        (Some("cand:2"), "GET", "/nowhere", no_candidate),
        (Some("cand:2"), "PUT", "/me", no_candidate),
        (Some("cand:2"), "HEAD", "/me", no_candidate),
        (Some("cand:2"), "GET", "/me", None),
        (Some("cand:2"), "GET", "/me/exam/000000007", None),
    ];
    for (caller, method, target, wanted) in cases {
        let found = refusal(rt.alloc(), &routes, caller, method, target);
        assert_same(&rt, found, wanted, (caller, method, target));
    }
    Ok(())
}

// Returns the period and the room of a place's body; `None` if the body is faulty.
fn place(alloc: Global, text: &str) -> Result<Option<(u32, u32)>, AllocError> {
    match place_body(alloc, text.as_bytes())? {
        Body::Given(place) => Ok(Some((place.period.get(), place.room.get()))),
        _ => Ok(None),
    }
}

#[test]
fn places_in_bodies(rt: HostRuntime) -> Result<(), Fail> {
    let cases = [
        ("{\"period\":1,\"room\":2}", Some((1, 2))),
        (" { \"room\" : 2 , \"period\" : 1 } ", Some((1, 2))),
        ("{\"period\":1,\"room\":2,\"room\":3}", Some((1, 3))),
        ("{\"period\":1,\"room\":\"x\",\"room\":3}", Some((1, 3))),
        ("{\"per\\u0069od\":7,\"room\":1}", Some((7, 1))),
        ("{\"period\":0,\"room\":999999999}", Some((0, 999_999_999))),
        ("{\"period\":0,\"room\":1000000000}", None),
        ("{\"period\":0,\"room\":18446744073709551616}", None),
        ("{\"period\":1,\"room\":2,\"x\":3}", None),
        ("{\"period\":1.0,\"room\":2}", None),
        ("{\"period\":1e0,\"room\":2}", None),
        ("{\"period\":-0,\"room\":2}", None),
        ("{\"period\":01,\"room\":2}", None),
        ("{\"period\":0,\"room\":1}x", None),
        ("{\"period\":0}", None),
        ("[0,1]", None),
        ("", None),
        ("\u{feff}{\"period\":1,\"room\":2}", None),
    ];
    for (text, wanted) in cases {
        assert_same(&rt, place(rt.alloc(), text)?, wanted, text);
    }
    Ok(())
}

#[test]
fn departments_in_bodies(rt: HostRuntime) -> Result<(), Fail> {
    let cases = [
        ("{\"dept\":3}", Body::Given(3)),
        ("{\"dept\":0}", Body::Given(0)),
        ("{\"dept\":999}", Body::Given(999)),
        ("{\"dept\":1000}", Body::Bad),
        ("{\"dept\":3,\"exam\":0}", Body::Bad),
        ("{}", Body::Bad),
        ("3", Body::Bad),
    ];
    for (text, wanted) in cases {
        let found = dept_body(rt.alloc(), text.as_bytes())?;
        assert_same(&rt, found, wanted, text);
    }
    Ok(())
}

// Returns whether a request loads the text of an instance.
fn loads(alloc: Global, routes: &Routes, request: &Request<'_>) -> bool {
    match read_request(alloc, routes, request) {
        Ok(asked) => matches!(asked.command, Command::Load(Body::Given(_))),
        Err(_) => false,
    }
}

#[test]
fn bodies_that_are_too_long(rt: HostRuntime) -> Result<(), Fail> {
    let long = vec![in rt.alloc(); b' '; 1_048_577]?;
    assert_same(
        &rt,
        dept_body(rt.alloc(), &long)?,
        Body::Long,
        "a department",
    );
    let is_long = matches!(text_body(&long), Body::Long);
    let is_given = matches!(text_body(b""), Body::Given(_));
    assert_same(&rt, (is_long, is_given), (true, true), "texts");
    let routes = Routes::new(rt.alloc())?;
    let load = Request {
        method: "PUT",
        target: "/instance",
        caller: Some(b"office"),
        body: &long,
    };
    assert_same(&rt, loads(rt.alloc(), &routes, &load), true, "an instance");
    Ok(())
}

#[test]
fn fixed_texts(rt: HostRuntime) {
    let cases: [(Reply, &[u8], u16); 8] = [
        (
            FixedError::Denied(Denial::P1).reply(),
            b"{\"error\":\"forbidden\",\"rule\":\"P1\"}",
            403,
        ),
        (FixedError::Path.reply(), b"{\"error\":\"path\"}", 404),
        (FixedError::Method.reply(), b"{\"error\":\"method\"}", 405),
        (
            FixedError::TooMany.reply(),
            b"{\"error\":\"too-many\"}",
            409,
        ),
        (unavailable(), b"{\"error\":\"unavailable\"}", 503),
        (fault_reply(Fault::Head), b"{\"error\":\"request\"}", 400),
        (fault_reply(Fault::TooLong), b"{\"error\":\"length\"}", 413),
        (
            fault_reply(Fault::Transfer),
            b"{\"error\":\"transfer\"}",
            501,
        ),
    ];
    for (reply, text, code) in cases {
        assert_same(&rt, reply.body.bytes(), text, code);
        assert_same(&rt, reply.status.code().as_u16(), code, code);
    }
}

#[test]
fn methods_of_a_page(rt: HostRuntime) {
    assert_same(&rt, allow(Page::Publication), "GET", "publication");
    assert_same(&rt, allow(Page::Draft), "GET, PUT, DELETE", "draft");
}
