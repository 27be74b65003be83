//! Lines that are read and written again, and a reply in each of its parts.
use super::*;
use bytes::Bytes;
use std::alloc::Global;
use std::test::Fail;

/// Lines of texts and NULLs, in the one spelling of their tokens.
const LINES: [&[u8]; 5] = [
    b"",
    b"\x00",
    b"\t\x00\t",
    b"ab\x01\x49\x10\xFF\t\x01\x40",
    b"0\t3\t2\t\x01\x40\x01\x49\x01\x4A\x01\x4FA\t7\t3\t\x00\t8\t4\t\t9",
];

fn spelled(alloc: Global, tokens: &[Token]) -> Result<Vec<u8>, Fail> {
    let mut out = Vec::new(alloc);
    push_line(&mut out, tokens)?;
    Ok(out)
}

#[test]
fn lines_are_read_and_written_again(rt: HostRuntime) -> Result<(), Fail> {
    let alloc = rt.alloc();
    for line in LINES {
        let shared = Bytes::copy_from_slice(alloc, line)?;
        assert_eq!(rt;
            spelled(alloc, &decode_line(alloc, line)?)?.as_slice(),
            line
        );
        assert_eq!(rt;
            spelled(alloc, &decode_shared(alloc, &shared)?)?.as_slice(),
            line
        );
    }
    Ok(())
}

#[test]
fn a_reply_is_its_parts(rt: HostRuntime) -> Result<(), Fail> {
    let alloc = rt.alloc();
    let mut out = Vec::new(alloc);
    push_reply(
        &mut out,
        16,
        4294967295,
        &[Token::Text(Bytes::from_static(b"ann\x0F")), Token::Null],
    )?;
    push_head(&mut out, 0, 3)?;
    out.push(TAB)?;
    push_integer(&mut out, i64::MIN)?;
    out.push(TAB)?;
    push_u64(&mut out, u64::MAX)?;
    out.push(TAB)?;
    push_text(&mut out, b"a\x0Fb\x10\x00")?;
    assert_eq!(rt;
        out.as_slice(),
        b"16\t4294967295\tann\x01\x4F\t\x00\n\
        0\t3\t-9223372036854775808\t18446744073709551615\ta\x01\x4Fb\x10\x01\x40"
            .as_slice()
    );
    Ok(())
}
