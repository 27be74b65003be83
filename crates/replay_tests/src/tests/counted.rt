//! A table with a counted column: what numbers are drawn, and when.
use super::dialogue::{Part, holds};
use Part::{Line, Says, Sent};
use std::test::Fail;

/// A table whose id is counted.
const TABLE: Part = Line(b"table test a c id int auto \x00 c v int null \x00 i PRIMARY primary id");

/// The same, and no two rows have one `v`.
const UNIQUE: Part = Line(
    b"table test a c id int auto \x00 c v int null \x00 i PRIMARY primary id i by_v unique v",
);

/// Id 1 is opened on `v`, and id 2 on `id` and `v`.
const OPENS: &[u8] = b"P 1 test a PRIMARY v\nP 2 test a PRIMARY id,v\n";

const TURN: Part = Line(b"turn w 1");

#[test]
fn a_number_is_above_all_that_were_there(rt: HostRuntime) -> Result<(), Fail> {
    assert!(rt;
        holds(
            &rt,
            &[
                TABLE,
                Line(b"open 1 w"),
                Says(1, OPENS),
                Says(1, b"1 + 1 7\n2 + 2 10 8\n1 + 1 9\n2 = 1 11 1 0 D\n1 + 1 9\n"),
                TURN,
                Sent(1, b"0 1\n0 1\n0 1 1\n0 1\n0 1 11\n0 1 1\n0 1 12\n"),
                // NULL and 0 are no numbers, and those below the counter leave it.
                Says(1, b"2 + 2 \x00 1\n2 + 2 0 2\n2 + 2 -5 3\n1 + 1 4\n"),
                TURN,
                Sent(1, b"0 1 13\n0 1 14\n0 1\n0 1 15\n"),
                Says(1, b"2 + 2 9223372036854775807 0\n1 + 1 1\n2 + 2 9 1\n"),
                TURN,
                Sent(1, b"0 1\n18 1 range\n0 1\n"),
            ]
        )?
    );
    Ok(())
}

#[test]
fn a_change_raises_the_counter_and_a_refused_line_leaves_it(rt: HostRuntime) -> Result<(), Fail> {
    assert!(rt;
        holds(
            &rt,
            &[
                UNIQUE,
                Line(b"open 1 w"),
                Says(1, OPENS),
                Says(1, b"1 + 1 7\n1 + 1 7\n1 + 1 8\n"),
                TURN,
                Sent(1, b"0 1\n0 1\n0 1 1\n16 1 dup\n0 1 2\n"),
                Says(1, b"2 = 1 1 1 0 U 50\n1 + 1 1\n2 = 1 50 1 0 + 10\n1 + 1 2\n"),
                TURN,
                Sent(1, b"0 1 1\n0 1 51\n0 1 1\n0 1 61\n"),
                // Of two rows the first becomes 70, and the second would be refused.
                Says(1, b"2 >= 1 2 2 0 U 70\n1 + 1 3\n"),
                TURN,
                Sent(1, b"16 1 dup\n0 1 62\n"),
                Says(1, b"2 = 1 2 1 0 U \x00\n1 + 1 4\n"),
                TURN,
                Sent(1, b"17 1 null\n0 1 63\n"),
            ]
        )?
    );
    Ok(())
}
