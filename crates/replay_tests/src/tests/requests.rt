//! What requests are answered, as dialogues over one connection. The replies are those of the protocol.
use super::dialogue::{Part, TABLE, holds};
use Part::{Line, Prints, Says, Sent};
use std::test::Fail;

/// Ids 1, 4, 5 and 3 are opened on the primary index, id 2 on `by_n`.
const OPENS: &[u8] =
    b"P 1 test t PRIMARY id,name,n\nP 2 test t by_n id\nP 3 test t PRIMARY id n,id\nP 4 test t PRIMARY n\nP 5 test t PRIMARY name\n";

const OPENED: &[u8] = b"0 1\n0 1\n0 1\n0 1\n0 1\n";

const TURN: Part = Line(b"turn w 1");

#[test]
fn a_row_is_inserted_and_found(rt: HostRuntime) -> Result<(), Fail> {
    assert!(rt;
        holds(
            &rt,
            &[
                Line(TABLE),
                Line(b"open 1 w"),
                Says(1, b"P 1 test t PRIMARY id,name,n\n1 + 3 1 ann 5\n1 = 1 1\n"),
                TURN,
                Sent(1, b"0 1\n0 1\n0 3 1 ann 5\n"),
            ]
        )?
    );
    Ok(())
}

/// Opens the ids, and has these lines answered.
fn answers(rt: &HostRuntime, lines: &'static [u8], replies: &'static [u8]) -> Result<bool, Fail> {
    holds(
        rt,
        &[
            Line(TABLE),
            Line(b"open 1 w"),
            Says(1, OPENS),
            TURN,
            Sent(1, OPENED),
            Says(1, lines),
            TURN,
            Sent(1, replies),
        ],
    )
}

#[test]
fn every_byte_passes_and_null_is_no_empty_text(rt: HostRuntime) -> Result<(), Fail> {
    assert!(rt;
        answers(
            &rt,
            b"1 + 3 2 \x01@\x01I\x01J\x01OA 7\n1 + 3 3 \x00 8\n1 + 3 4  9\n1 >= 1 2 3 0\n",
            b"0 1\n0 1\n0 1\n0 3 2 \x01@\x01I\x01J\x01OA 7 3 \x00 8 4  9\n",
        )?
    );
    Ok(())
}

/// Whether a find among the rows (1, a, 4), (2, b, 4), (3, c, 4) and (4, d, 6) is answered so.
fn selects(rt: &HostRuntime, line: &'static [u8], reply: &'static [u8]) -> Result<bool, Fail> {
    holds(
        rt,
        &[
            Line(TABLE),
            Line(b"open 1 w"),
            Says(1, OPENS),
            Says(1, b"1 + 3 1 a 4\n1 + 3 2 b 4\n1 + 3 3 c 4\n1 + 3 4 d 6\n"),
            TURN,
            Sent(1, b"0 1\n0 1\n0 1\n0 1\n0 1\n0 1\n0 1\n0 1\n0 1\n"),
            Says(1, line),
            TURN,
            Sent(1, reply),
        ],
    )
}

#[test]
fn rows_are_selected(rt: HostRuntime) -> Result<(), Fail> {
    // Equal rows descend by primary key.
    assert!(rt; selects(&rt, b"2 <= 1 4 2 0\n", b"0 1 3 2\n")?);
    assert!(rt; selects(&rt, b"1 = 1 9 2 1 @ 0 3 3 1 3\n", b"0 3 1 a 4\n")?);
    assert!(rt; selects(&rt, b"3 >= 1 1 10 0 F != 1 2\n", b"0 1 1 3 4\n")?);
    assert!(rt; selects(&rt, b"3 >= 1 1 10 0 W != 1 2\n", b"0 1 1\n")?);
    assert!(rt; selects(&rt, b"3 >= 1 1 10 0 F = 0 4 W != 1 3\n", b"0 1 1 2\n")?);
    assert!(rt; selects(&rt, b"3 > 1 1 2 0\n", b"0 1 2 3\n")?);
    assert!(rt; selects(&rt, b"3 < 1 3 9 0\n", b"0 1 2 1\n")?);
    assert!(rt; selects(&rt, b"3 = 1 4\n", b"0 1 4\n")?);
    assert!(rt; selects(&rt, b"3 >= 1 1 0 0\n", b"0 1\n")?);
    assert!(rt; selects(&rt, b"3 >= 1 1 9 4\n", b"0 1\n")?);
    assert!(rt; selects(&rt, b"3 >= 1 1 4294967295 4294967295\n", b"0 1\n")?);
    assert!(rt; selects(&rt, b"3 >= 1 1 4294967295 3\n", b"0 1 4\n")?);
    Ok(())
}

#[test]
fn rows_are_changed_all_or_none(rt: HostRuntime) -> Result<(), Fail> {
    // A sign doesn't turn, and zero has none.
    assert!(rt;
        answers(
            &rt,
            b"1 + 3 1 a 3\n1 + 3 2 b 0\n1 + 3 3 c -2\n4 >= 1 1 10 0 - 5\n4 >= 1 1 10 0\n",
            b"0 1\n0 1\n0 1\n0 1 3\n0 1 3 -5 -7\n",
        )?
    );
    assert!(rt;
        answers(
            &rt,
            b"1 + 3 1 a 1\n1 + 3 2 b 9223372036854775807\n4 >= 1 1 10 0 + 1\n4 >= 1 1 10 0\n",
            b"0 1\n0 1\n18 1 range\n0 1 1 9223372036854775807\n",
        )?
    );
    assert!(rt;
        answers(
            &rt,
            b"1 + 3 1 a 1\n1 + 3 2 b 1\n5 >= 1 1 10 0 U z\n5 >= 1 1 10 0\n",
            b"0 1\n0 1\n16 1 dup\n0 1 a b\n",
        )?
    );
    // What is shown is from before the change.
    assert!(rt;
        answers(
            &rt,
            b"1 + 3 1 ann 5\n4 = 1 1 1 0 +? 1\n4 = 1 1\n4 = 1 1 1 0 D\n4 = 1 1\n",
            b"0 1\n0 1 5\n0 1 6\n0 1 1\n0 1\n",
        )?
    );
    // A change over the index that it changes meets each row once.
    assert!(rt;
        answers(
            &rt,
            b"P 6 test t by_n n\n1 + 3 1 a 1\n1 + 3 2 b 2\n6 >= 1 1 10 0 + 1\n6 >= 1 0 10 0\n",
            b"0 1\n0 1\n0 1\n0 1 2\n0 1 2 3\n",
        )?
    );
    assert!(rt;
        answers(
            &rt,
            b"1 + 3 1 a 1\n1 + 3 1 b 1\n1 + 3 2 a 1\n1 + 3 2 123456789012345678901234567890123 1\n1 + 1 \x00\n",
            b"0 1\n16 1 dup\n16 1 dup\n15 1 value\n17 1 null\n",
        )?
    );
    Ok(())
}

#[test]
fn lines_are_refused(rt: HostRuntime) -> Result<(), Fail> {
    assert!(rt; answers(&rt, b"1 = 1 1\r\n", b"4 1 token\n")?);
    assert!(rt; answers(&rt, b"\n", b"1 1 cmd\n")?);
    assert!(rt; answers(&rt, b"7 = 1 1\n", b"5 1 noindex\n")?);
    assert!(rt; answers(&rt, b"P 1 test u PRIMARY id\n", b"6 1 table\n")?);
    assert!(rt; answers(&rt, b"P 1 test t nope id\n", b"7 1 index\n")?);
    assert!(rt; answers(&rt, b"P 1 test t PRIMARY ID\n", b"8 1 column\n")?);
    assert!(rt; answers(&rt, b"1 ? 1 1\n", b"10 1 op\n")?);
    assert!(rt; answers(&rt, b"1 = 2 1 1\n", b"11 1 vlen\n")?);
    assert!(rt; answers(&rt, b"1 = 1 x\n", b"15 1 value\n")?);
    assert!(rt; answers(&rt, b"1 = 1 1 1 0 @ 1 1 1\n", b"12 1 in\n")?);
    assert!(rt; answers(&rt, b"1 = 1 1 1 0 F = 0 1\n", b"13 1 filter\n")?);
    assert!(rt; answers(&rt, b"1 = 1 1 1 0 U 1 2 3 4\n", b"14 1 mod\n")?);
    assert!(rt; answers(&rt, b"1 = 1\n", b"2 1 args\n")?);
    assert!(rt; answers(&rt, b"1 = 1 1\r\n1 = 1 1\n", b"4 1 token\n0 3\n")?);
    assert!(rt;
        answers(
            &rt,
            b"P 1 test t PRIMARY n\n1 + 1 7\n1 = 1 1\n",
            b"0 1\n17 1 null\n0 1\n"
        )?
    );
    assert!(rt; answers(&rt, b"P 9 test t PRIMARY id\n9 = 1 1\n", b"0 1\n0 1\n")?);
    Ok(())
}

#[test]
fn a_port_has_its_own_lines_and_its_own_secret(rt: HostRuntime) -> Result<(), Fail> {
    assert!(rt;
        holds(
            &rt,
            &[
                Line(b"secret r k"),
                Line(TABLE),
                Line(b"open 1 r"),
                Line(b"open 2 w"),
                Says(
                    1,
                    b"P 1 test t PRIMARY id\nA 1 no\nA 1 k\nP 1 test t PRIMARY id,name,n\n1 + 3 9 x 1\n"
                ),
                Says(2, b"P 1 test t PRIMARY id\n"),
                Line(b"turn r 1"),
                Sent(1, b"3 1 unauth\n22 1 authkey\n0 1\n0 1\n9 1 readonly\n"),
                Line(b"turn w 2"),
                Sent(2, b"0 1\n"),
            ]
        )?
    );
    Ok(())
}

/// Whether the last of three rows of 87 bytes is answered so under a limit.
fn fills(rt: &HostRuntime, limit: &'static [u8], replies: &'static [u8]) -> Result<bool, Fail> {
    holds(
        rt,
        &[
            Line(limit),
            Line(TABLE),
            Line(b"open 1 w"),
            Says(1, OPENS),
            TURN,
            Sent(1, OPENED),
            Says(1, b"1 + 3 1 ann 5\n1 + 3 2 bob 5\n1 + 3 3 cat 5\n"),
            TURN,
            Sent(1, replies),
        ],
    )
}

#[test]
fn rows_are_full_at_the_exact_byte(rt: HostRuntime) -> Result<(), Fail> {
    assert!(rt; fills(&rt, b"limit bytes 200", b"0 1\n0 1\n19 1 full\n")?);
    assert!(rt; fills(&rt, b"limit bytes 260", b"0 1\n0 1\n19 1 full\n")?);
    assert!(rt; fills(&rt, b"limit bytes 261", b"0 1\n0 1\n0 1\n")?);
    Ok(())
}

#[test]
fn rows_are_shown_by_primary_key(rt: HostRuntime) -> Result<(), Fail> {
    assert!(rt;
        holds(
            &rt,
            &[
                Line(TABLE),
                Line(b"show test t"),
                Line(b"open 1 w"),
                Says(1, OPENS),
                Says(1, b"1 + 3 7 \x00 1\n1 + 3 -2 b 9\n"),
                TURN,
                Sent(1, b"0 1\n0 1\n0 1\n0 1\n0 1\n0 1\n0 1\n"),
                Line(b"show test t"),
                Prints(b"row -2 b 9"),
                Prints(b"row 7 \x00 1"),
            ]
        )?
    );
    Ok(())
}
