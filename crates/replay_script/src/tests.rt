//! Tables of lines, and what they say. Their values are the script's rules written out, and none comes from a run.
use super::*;
use bytes::Bytes;
use hs_token::Token;
use request_types::Port;
use std::alloc::{AllocError, Global};
use std::test::Fail;

/// What a line is to say. A token that is NULL is `None`.
#[derive(Clone, Copy)]
enum Said<'a> {
    Table(&'a [Option<&'a [u8]>]),
    LimitBytes(u32),
    Secret(Port, &'a [u8]),
    Open(u32, Port),
    Bytes(u32, &'a [u8]),
    End(u32),
    Room(u32, u32),
    Fault(u32),
    Turn(Port, &'a [u32]),
    Show(&'a [u8], &'a [u8]),
}

fn are_tokens(tokens: &[Token], texts: &[Option<&[u8]>]) -> bool {
    if tokens.len() != texts.len() {
        return false;
    }
    for (token, text) in tokens.iter().zip(texts) {
        let is = match token {
            Token::Null => None,
            Token::Text(bytes) => Some(bytes.as_slice()),
        };
        if is != *text {
            return false;
        }
    }
    true
}

fn is_said(event: &Event, said: Said<'_>) -> bool {
    match (event, said) {
        (Event::Table(tokens), Said::Table(texts)) => are_tokens(tokens.as_slice(), texts),
        (Event::LimitBytes(a), Said::LimitBytes(b)) => *a == b,
        (Event::Secret(p, a), Said::Secret(q, b)) => *p == q && a.as_slice() == b,
        (Event::Open(a, p), Said::Open(b, q)) => *a == b && *p == q,
        (Event::Bytes(a, s), Said::Bytes(b, t)) => *a == b && s.as_slice() == t,
        (Event::End(a), Said::End(b)) => *a == b,
        (Event::Room(a, m), Said::Room(b, n)) => *a == b && *m == n,
        (Event::Fault(a), Said::Fault(b)) => *a == b,
        (Event::Turn(p, a), Said::Turn(q, b)) => *p == q && a.as_slice() == b,
        (Event::Show(d, s), Said::Show(e, t)) => d.as_slice() == e && s.as_slice() == t,
        (_, _) => false,
    }
}

/// Whether the line says this, or no event at all.
fn says(alloc: Global, line: &[u8], said: Option<Said<'_>>) -> Result<bool, AllocError> {
    let event = event_of(alloc, &Bytes::copy_from_slice(alloc, line)?)?;
    Ok(match (&event, said) {
        (Some(event), Some(said)) => is_said(event, said),
        (None, None) => true,
        (_, _) => false,
    })
}

/// Lines, and what each says.
const LINES: [(&[u8], Said<'static>); 22] = [
    (b"table", Said::Table(&[Some(b"table")])),
    (
        b"table\ttest\tt\tc\tid\tint\tnot\t\x00\t",
        Said::Table(&[
            Some(b"table"),
            Some(b"test"),
            Some(b"t"),
            Some(b"c"),
            Some(b"id"),
            Some(b"int"),
            Some(b"not"),
            None,
            Some(b""),
        ]),
    ),
    (b"limit\tbytes\t1", Said::LimitBytes(1)),
    (b"limit\tbytes\t268435456", Said::LimitBytes(268_435_456)),
    (b"limit\tbytes\t0000000000100", Said::LimitBytes(100)),
    (b"secret\tr\tkey", Said::Secret(Port::Reading, b"key")),
    (b"secret\tw\t", Said::Secret(Port::Writing, b"")),
    (
        b"secret\tw\t\x01\x40\x01\x49\xFF",
        Said::Secret(Port::Writing, b"\x00\t\xFF"),
    ),
    (b"open\t1\tw", Said::Open(1, Port::Writing)),
    (b"open\t0\tr", Said::Open(0, Port::Reading)),
    (
        b"open\t4294967295\tr",
        Said::Open(4294967295, Port::Reading),
    ),
    (b"bytes\t1\tP\x01I1\x01J", Said::Bytes(1, b"P\t1\n")),
    (b"bytes\t007\t", Said::Bytes(7, b"")),
    (b"bytes\t2\tplain", Said::Bytes(2, b"plain")),
    (b"end\t1", Said::End(1)),
    (b"room\t1\t0", Said::Room(1, 0)),
    (b"room\t2\t4294967295", Said::Room(2, 4294967295)),
    (b"fault\t3", Said::Fault(3)),
    (b"turn\tw\t1", Said::Turn(Port::Writing, &[1])),
    (b"turn\tr\t3\t01\t2", Said::Turn(Port::Reading, &[3, 1, 2])),
    (b"show\ttest\tt", Said::Show(b"test", b"t")),
    (b"show\t\t\x01\x4A", Said::Show(b"", b"\n")),
];

#[test]
fn each_event_is_read_from_its_line(rt: HostRuntime) -> Result<(), Fail> {
    for (line, said) in LINES {
        assert!(rt; says(rt.alloc(), line, Some(said))?, "{line:?}");
    }
    Ok(())
}

/// Lines that say no event, and what is wrong with each.
const REFUSED: [(&str, &[u8]); 62] = [
    ("an empty line", b""),
    ("two empty tokens", b"\t"),
    ("NULL in place of the word", b"\x00\t1"),
    ("an unknown word", b"close\t1"),
    ("a word in capitals", b"End\t1"),
    ("a word that goes on", b"ends\t1"),
    ("a word cut short", b"tabl\ttest\tt"),
    ("a space behind the word", b"end \t1"),
    ("a space for the tab", b"end 1"),
    ("a raw control byte", b"bytes\t1\ta\rb"),
    ("a raw zero inside a text", b"bytes\t1\ta\x00"),
    ("an escape without its second byte", b"bytes\t1\ta\x01"),
    ("a line feed", b"end\t1\n"),
    ("bytes without a piece", b"bytes\t1"),
    ("bytes with two pieces", b"bytes\t1\ta\tb"),
    ("bytes of NULL", b"bytes\t1\t\x00"),
    ("bytes of no connection", b"bytes\t\ta"),
    ("bytes of the connection NULL", b"bytes\t\x00\ta"),
    ("bytes of a connection that is no number", b"bytes\tone\ta"),
    ("open without a port", b"open\t1"),
    ("open with a token too much", b"open\t1\tw\t"),
    ("open on port x", b"open\t1\tx"),
    ("open on port s", b"open\t1\ts"),
    ("open on a port in capitals", b"open\t1\tW"),
    ("open on no port", b"open\t1\t"),
    ("open on two ports", b"open\t1\trw"),
    ("open on the port NULL", b"open\t1\t\x00"),
    ("open with the port first", b"open\tw\t1"),
    ("a number too big", b"open\t4294967296\tw"),
    ("a number with a plus", b"open\t+1\tw"),
    ("a number with a minus", b"open\t-1\tw"),
    ("a number behind a space", b"open\t 1\tw"),
    ("a number with a point", b"open\t1.0\tw"),
    ("end without a connection", b"end"),
    ("end of two connections", b"end\t1\t2"),
    ("end of NULL", b"end\t\x00"),
    ("room without a number", b"room\t1"),
    ("room with a token too much", b"room\t1\t2\t3"),
    ("room for NULL", b"room\t1\t\x00"),
    ("room for too many bytes", b"room\t1\t4294967296"),
    ("fault without a connection", b"fault"),
    ("fault of two connections", b"fault\t1\t2"),
    ("a turn of no port", b"turn"),
    ("a turn without connections", b"turn\tw"),
    ("a turn of the empty number", b"turn\tw\t"),
    ("a turn with one connection twice", b"turn\tw\t1\t01"),
    (
        "a turn with the first again at its end",
        b"turn\tw\t1\t2\t3\t1",
    ),
    ("a turn with NULL", b"turn\tw\t1\t\x00"),
    ("a turn on port s", b"turn\ts\t1"),
    ("show without a table", b"show\ttest"),
    ("show with a token too much", b"show\ttest\tt\tt"),
    ("show of NULL", b"show\ttest\t\x00"),
    ("a limit of 0", b"limit\tbytes\t0"),
    ("a limit of 268,435,457", b"limit\tbytes\t268435457"),
    ("a limit of more than 32 bits", b"limit\tbytes\t4294967297"),
    ("a limit of the log", b"limit\tlog\t1000"),
    ("a limit of NULL", b"limit\tbytes\t\x00"),
    ("a limit without a number", b"limit\tbytes"),
    ("a limit with a token too much", b"limit\tbytes\t1\t1"),
    ("a secret on port s", b"secret\ts\tkey"),
    ("a secret without a key", b"secret\tr"),
    ("a secret that is NULL", b"secret\tr\t\x00"),
];

#[test]
fn other_lines_say_no_event(rt: HostRuntime) -> Result<(), Fail> {
    for (wrong, line) in REFUSED {
        assert!(rt; says(rt.alloc(), line, None)?, "{wrong}");
    }
    Ok(())
}

#[test]
fn a_line_may_have_65_536_bytes_and_no_more(rt: HostRuntime) -> Result<(), Fail> {
    let alloc = rt.alloc();
    let piece = vec![in alloc; b'a'; 65_528]?;
    let mut line = Vec::from_slice(alloc, b"bytes\t1\t".as_slice())?;
    line.extend_from_slice(&piece)?;
    assert_eq!(rt; line.len(), 65_536);
    assert!(rt; says(alloc, &line, Some(Said::Bytes(1, &piece)))?);
    line.push(b'a')?;
    assert!(rt; says(alloc, &line, None)?);
    Ok(())
}

#[test]
fn a_turn_may_have_256_connections_and_none_of_them_twice(rt: HostRuntime) -> Result<(), Fail> {
    let alloc = rt.alloc();
    let mut line = Vec::from_slice(alloc, b"turn\tw".as_slice())?;
    let mut conns = Vec::new(alloc);
    for conn in 0..256u32 {
        line.extend_from_slice(format!(in alloc; "\t{conn}")?.as_bytes())?;
        conns.push(conn)?;
    }
    assert!(rt; says(alloc, &line, Some(Said::Turn(Port::Writing, &conns)))?);
    line.extend_from_slice(b"\t255".as_slice())?;
    assert!(rt; says(alloc, &line, None)?);
    Ok(())
}

#[test]
fn ports_are_named_by_one_small_letter(rt: HostRuntime) {
    for (word, port) in [
        (b"r".as_slice(), Some(Port::Reading)),
        (b"w", Some(Port::Writing)),
        (b"s", None),
        (b"R", None),
        (b"", None),
        (b"rr", None),
    ] {
        assert!(rt; port_of(word) == port, "{word:?}");
    }
}
