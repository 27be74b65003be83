//! Turns over several connections, links that are full or fail, and how connections close.
use super::dialogue::{Part, TABLE, holds, push_part, run_script};
use Part::{Line, Prints, Says, Sent};
use std::alloc::{AllocError, Global};
use std::test::Fail;

/// The lines that open id 1, insert a row and find it, and the replies to them.
const ASKS: &[u8] = b"P 1 test t PRIMARY id,name,n\n1 + 3 1 ann 5\n1 = 1 1\n";

const REPLIES: &[u8] = b"0 1\n0 1\n0 3 1 ann 5\n";

const TURN: Part = Line(b"turn w 1");

#[test]
fn a_later_connection_of_a_turn_sees_what_an_earlier_one_did(rt: HostRuntime) -> Result<(), Fail> {
    assert!(rt;
        holds(
            &rt,
            &[
                Line(TABLE),
                Line(b"open 1 w"),
                Line(b"open 2 w"),
                Says(2, b"P 1 test t PRIMARY id,name,n\n"),
                Says(1, b"P 1 test t PRIMARY id,name,n\n1 + 3 1 ann 5\n"),
                Says(2, b"1 = 1 1\n"),
                Line(b"turn w 1 2"),
                Sent(1, b"0 1\n0 1\n"),
                Sent(2, b"0 1\n0 3 1 ann 5\n"),
                Says(1, b"1 = 1 1 1 0 + 1\n"),
                Says(2, b"1 = 1 1\n"),
                Line(b"turn w 2 1"),
                Sent(2, b"0 3 1 ann 5\n"),
                Sent(1, b"0 1 1\n"),
            ]
        )?
    );
    Ok(())
}

#[test]
fn a_link_takes_what_it_has_room_for(rt: HostRuntime) -> Result<(), Fail> {
    assert!(rt;
        holds(
            &rt,
            &[
                Line(TABLE),
                Line(b"open 1 w"),
                Says(1, ASKS),
                Line(b"room 1 3"),
                TURN,
                Sent(1, b"0 1"),
                Line(b"room 1 100"),
                TURN,
                Sent(1, b"\n0 1\n0 3 1 ann 5\n"),
            ]
        )?
    );
    Ok(())
}

#[test]
fn a_link_that_fails_closes_its_connection_and_no_other(rt: HostRuntime) -> Result<(), Fail> {
    assert!(rt; holds(&rt, &[
        Line(TABLE),
        Line(b"open 1 w"),
        Line(b"open 2 w"),
        Says(1, ASKS),
        Says(2, ASKS),
        Line(b"fault 1"),
        Line(b"turn w 1 2"),
        Sent(1, b""),
        Prints(b"closed 1 link"),
        Sent(2, REPLIES),
        // The send fails, since nothing is received any more.
        Says(2, b"1 = 1 1\n"),
        Line(b"room 2 0"),
        Line(b"turn w 2"),
        Sent(2, b""),
        Line(b"fault 2"),
        Line(b"turn w 2"),
        Sent(2, b""),
        Prints(b"closed 2 link"),
    ])?);
    Ok(())
}

/// Whether a peer that says this and ends is answered so, and its connection closed.
fn ends(rt: &HostRuntime, said: &'static [u8], sent: &'static [u8]) -> Result<bool, Fail> {
    holds(
        rt,
        &[
            Line(TABLE),
            Line(b"open 1 w"),
            Says(1, said),
            Line(b"end 1"),
            TURN,
            Sent(1, sent),
            Prints(b"closed 1 ended"),
        ],
    )
}

#[test]
fn a_peer_that_ends_is_answered_first(rt: HostRuntime) -> Result<(), Fail> {
    assert!(rt; ends(&rt, b"", b"")?);
    // What isn't a whole line is let go.
    assert!(rt; ends(&rt, b"x\n1 = 1", b"1 1 cmd\n")?);
    assert!(rt; ends(&rt, b"x\n", b"1 1 cmd\n")?);
    Ok(())
}

/// Appends parts of a script and of what it prints.
fn push_parts(
    alloc: Global,
    script: &mut Vec<u8>,
    printed: &mut Vec<u8>,
    parts: &[Part],
) -> Result<(), AllocError> {
    for part in parts {
        push_part(alloc, script, printed, *part)?;
    }
    Ok(())
}

/// Appends a text so many times.
fn push_times(out: &mut Vec<u8>, text: &[u8], times: usize) -> Result<(), AllocError> {
    for _ in 0..times {
        out.extend_from_slice(text)?;
    }
    Ok(())
}

/// Whether a script is carried out to its end and prints just this.
fn prints(alloc: Global, script: &[u8], printed: &[u8]) -> Result<bool, AllocError> {
    let ran = run_script(alloc, script, 1000)?;
    Ok(ran.status == 0 && ran.out.bytes() == printed)
}

#[test]
fn a_turn_takes_256_lines_of_a_connection(rt: HostRuntime) -> Result<(), Fail> {
    let alloc = rt.alloc();
    for (lines, second) in [(257, 1), (300, 44)] {
        let mut script = Vec::new(alloc);
        let mut printed = Vec::new(alloc);
        push_parts(
            alloc,
            &mut script,
            &mut printed,
            &[Line(TABLE), Line(b"open 1 w")],
        )?;
        script.extend_from_slice(b"bytes\t1\t")?;
        push_times(&mut script, b"x\x01J", lines)?;
        script.extend_from_slice(b"\nend\t1\nturn\tw\t1\nturn\tw\t1\n")?;
        printed.extend_from_slice(b"sent\t1\t")?;
        push_times(&mut printed, b"1\x01I1\x01Icmd\x01J", 256)?;
        printed.extend_from_slice(b"\nsent\t1\t")?;
        push_times(&mut printed, b"1\x01I1\x01Icmd\x01J", second)?;
        printed.extend_from_slice(b"\nclosed\t1\tended\n")?;
        assert!(rt; prints(alloc, &script, &printed)?);
    }
    Ok(())
}

#[test]
fn a_line_may_have_65536_bytes_and_no_more(rt: HostRuntime) -> Result<(), Fail> {
    let alloc = rt.alloc();
    for (len, is_long) in [(65_536, false), (65_537, true)] {
        let mut script = Vec::new(alloc);
        let mut printed = Vec::new(alloc);
        push_parts(
            alloc,
            &mut script,
            &mut printed,
            &[Line(TABLE), Line(b"open 1 w"), Says(1, b"x\n")],
        )?;
        // In pieces, since a line of the script has a limit of its own.
        for _ in 0..len / 4096 {
            script.extend_from_slice(b"bytes\t1\t")?;
            push_times(&mut script, b"x", 4096)?;
            script.push(b'\n')?;
        }
        script.extend_from_slice(b"bytes\t1\t")?;
        push_times(&mut script, b"x", len % 4096)?;
        script.extend_from_slice(b"\nturn\tw\t1\n")?;
        printed.extend_from_slice(b"sent\t1\t1\x01I1\x01Icmd\x01J\n")?;
        if is_long {
            printed.extend_from_slice(b"closed\t1\tlong\n")?;
        } else {
            script.extend_from_slice(b"bytes\t1\t\x01J\nturn\tw\t1\n")?;
            printed.extend_from_slice(b"sent\t1\t1\x01I1\x01Icmd\x01J\n")?;
        }
        assert!(rt; prints(alloc, &script, &printed)?);
    }
    Ok(())
}

#[test]
fn a_link_with_room_for_one_byte_a_turn_gets_all(rt: HostRuntime) -> Result<(), Fail> {
    let alloc = rt.alloc();
    let mut script = Vec::new(alloc);
    let mut printed = Vec::new(alloc);
    push_parts(
        alloc,
        &mut script,
        &mut printed,
        &[Line(TABLE), Line(b"open 1 w"), Says(1, ASKS)],
    )?;
    let replies: &[u8] = b"0\t1\n0\t1\n0\t3\t1\tann\t5\n";
    for byte in replies {
        script.extend_from_slice(b"room\t1\t1\nturn\tw\t1\n")?;
        printed.extend_from_slice(b"sent\t1\t")?;
        match *byte {
            b'\t' => printed.extend_from_slice(b"\x01I")?,
            b'\n' => printed.extend_from_slice(b"\x01J")?,
            byte => printed.push(byte)?,
        }
        printed.push(b'\n')?;
    }
    assert!(rt; prints(alloc, &script, &printed)?);
    Ok(())
}
