//! Lines that are bad, by what is wrong with them: the status, and the line that is named.
use super::dialogue::{run_script, script_of};
use std::test::Fail;

/// Whether this is said of a script of these lines behind the table: which line is no event.
fn is_bad(rt: &HostRuntime, lines: &[u8], said: &[u8]) -> Result<bool, Fail> {
    let alloc = rt.alloc();
    let script = script_of(alloc, true, lines)?;
    let ran = run_script(alloc, &script, 7)?;
    Ok(ran.status == 4 && ran.err.bytes() == said)
}

#[test]
fn a_line_spells_tokens_and_is_whole(rt: HostRuntime) -> Result<(), Fail> {
    assert!(rt; is_bad(&rt, b"\n", b"script line 2\n")?);
    assert!(rt; is_bad(&rt, b"open 1 w", b"script line 2\n")?);
    assert!(rt; is_bad(&rt, b"open 1 w\r\n", b"script line 2\n")?);
    assert!(rt; is_bad(&rt, b"show test t\x02\n", b"script line 2\n")?);
    assert!(rt; is_bad(&rt, b"open 1 w\nbytes 1 \x01P\n", b"script line 3\n")?);
    assert!(rt; is_bad(&rt, b"open 1 w\nbytes 1 \x01 J\n", b"script line 3\n")?);
    assert!(rt; is_bad(&rt, b"open 1 w\nend", b"script line 3\n")?);
    Ok(())
}

#[test]
fn a_line_begins_with_a_word_of_its_own(rt: HostRuntime) -> Result<(), Fail> {
    assert!(rt; is_bad(&rt, b"close 1\n", b"script line 2\n")?);
    assert!(rt; is_bad(&rt, b"Open 1 w\n", b"script line 2\n")?);
    assert!(rt; is_bad(&rt, b"opens 1 w\n", b"script line 2\n")?);
    assert!(rt; is_bad(&rt, b" open 1 w\n", b"script line 2\n")?);
    assert!(rt; is_bad(&rt, b"\x00 1 w\n", b"script line 2\n")?);
    assert!(rt; is_bad(&rt, b"limit rows 9\n", b"script line 2\n")?);
    Ok(())
}

#[test]
fn no_token_may_be_missing(rt: HostRuntime) -> Result<(), Fail> {
    assert!(rt; is_bad(&rt, b"limit bytes\n", b"script line 2\n")?);
    assert!(rt; is_bad(&rt, b"secret r\n", b"script line 2\n")?);
    assert!(rt; is_bad(&rt, b"open 1\n", b"script line 2\n")?);
    assert!(rt; is_bad(&rt, b"show test\n", b"script line 2\n")?);
    assert!(rt; is_bad(&rt, b"open 1 w\nbytes 1\n", b"script line 3\n")?);
    assert!(rt; is_bad(&rt, b"open 1 w\nend\n", b"script line 3\n")?);
    assert!(rt; is_bad(&rt, b"open 1 w\nroom 1\n", b"script line 3\n")?);
    assert!(rt; is_bad(&rt, b"open 1 w\nfault\n", b"script line 3\n")?);
    assert!(rt; is_bad(&rt, b"open 1 w\nturn\n", b"script line 3\n")?);
    assert!(rt; is_bad(&rt, b"open 1 w\nturn w\n", b"script line 3\n")?);
    Ok(())
}

#[test]
fn no_token_may_stand_behind_the_last(rt: HostRuntime) -> Result<(), Fail> {
    assert!(rt; is_bad(&rt, b"limit bytes 9 9\n", b"script line 2\n")?);
    assert!(rt; is_bad(&rt, b"secret r k k\n", b"script line 2\n")?);
    assert!(rt; is_bad(&rt, b"open 1 w 1\n", b"script line 2\n")?);
    assert!(rt; is_bad(&rt, b"open 1 w \n", b"script line 2\n")?);
    assert!(rt; is_bad(&rt, b"show test t t\n", b"script line 2\n")?);
    assert!(rt; is_bad(&rt, b"open 1 w\nbytes 1 x x\n", b"script line 3\n")?);
    assert!(rt; is_bad(&rt, b"open 1 w\nend 1 1\n", b"script line 3\n")?);
    assert!(rt; is_bad(&rt, b"open 1 w\nroom 1 1 1\n", b"script line 3\n")?);
    assert!(rt; is_bad(&rt, b"open 1 w\nfault 1 1\n", b"script line 3\n")?);
    assert!(rt; is_bad(&rt, b"open 1 w\nturn w 1 \n", b"script line 3\n")?);
    Ok(())
}

#[test]
fn a_number_is_digits_alone_and_below_two_to_the_32nd(rt: HostRuntime) -> Result<(), Fail> {
    assert!(rt; is_bad(&rt, b"open 4294967296 w\n", b"script line 2\n")?);
    assert!(rt; is_bad(&rt, b"open -1 w\n", b"script line 2\n")?);
    assert!(rt; is_bad(&rt, b"open +1 w\n", b"script line 2\n")?);
    assert!(rt; is_bad(&rt, b"open  w\n", b"script line 2\n")?);
    assert!(rt; is_bad(&rt, b"open 1x w\n", b"script line 2\n")?);
    assert!(rt; is_bad(&rt, b"open 1 w\nroom 1 4294967296\n", b"script line 3\n")?);
    assert!(rt; is_bad(&rt, b"open 1 w\nroom 1 x\n", b"script line 3\n")?);
    assert!(rt; is_bad(&rt, b"limit bytes 0\n", b"script line 2\n")?);
    assert!(rt; is_bad(&rt, b"limit bytes 268435457\n", b"script line 2\n")?);
    Ok(())
}

#[test]
fn null_stands_for_no_text(rt: HostRuntime) -> Result<(), Fail> {
    assert!(rt; is_bad(&rt, b"secret r \x00\n", b"script line 2\n")?);
    assert!(rt; is_bad(&rt, b"open \x00 w\n", b"script line 2\n")?);
    assert!(rt; is_bad(&rt, b"open 1 \x00\n", b"script line 2\n")?);
    assert!(rt; is_bad(&rt, b"show test \x00\n", b"script line 2\n")?);
    assert!(rt; is_bad(&rt, b"open 1 w\nbytes 1 \x00\n", b"script line 3\n")?);
    assert!(rt; is_bad(&rt, b"open 1 w\nend \x00\n", b"script line 3\n")?);
    assert!(rt; is_bad(&rt, b"open 1 w\nturn \x00 1\n", b"script line 3\n")?);
    assert!(rt; is_bad(&rt, b"open 1 w\nturn w 1 \x00\n", b"script line 3\n")?);
    Ok(())
}

#[test]
fn a_port_is_r_or_w(rt: HostRuntime) -> Result<(), Fail> {
    assert!(rt; is_bad(&rt, b"open 1 x\n", b"script line 2\n")?);
    assert!(rt; is_bad(&rt, b"open 1 s\n", b"script line 2\n")?);
    assert!(rt; is_bad(&rt, b"open 1 W\n", b"script line 2\n")?);
    assert!(rt; is_bad(&rt, b"open 1 \n", b"script line 2\n")?);
    assert!(rt; is_bad(&rt, b"secret s k\n", b"script line 2\n")?);
    assert!(rt; is_bad(&rt, b"open 1 w\nturn rw 1\n", b"script line 3\n")?);
    Ok(())
}

#[test]
fn a_connection_is_opened_once_and_before_all_else(rt: HostRuntime) -> Result<(), Fail> {
    assert!(rt; is_bad(&rt, b"open 1 w\nopen 1 w\n", b"script line 3\n")?);
    assert!(rt; is_bad(&rt, b"open 1 w\nopen 01 r\n", b"script line 3\n")?);
    assert!(rt; is_bad(&rt, b"open 1 w\nbytes 2 x\n", b"script line 3\n")?);
    assert!(rt; is_bad(&rt, b"end 1\n", b"script line 2\n")?);
    assert!(rt; is_bad(&rt, b"open 1 w\nroom 2 1\n", b"script line 3\n")?);
    assert!(rt; is_bad(&rt, b"fault 1\n", b"script line 2\n")?);
    assert!(rt; is_bad(&rt, b"turn w 9\n", b"script line 2\n")?);
    assert!(rt; is_bad(&rt, b"show test u\n", b"script line 2\n")?);
    assert!(rt; is_bad(&rt, b"show tes t\n", b"script line 2\n")?);
    Ok(())
}

#[test]
fn a_peer_that_has_ended_sends_no_more(rt: HostRuntime) -> Result<(), Fail> {
    assert!(rt; is_bad(&rt, b"open 1 w\nend 1\nend 1\n", b"script line 4\n")?);
    assert!(rt; is_bad(&rt, b"open 1 w\nend 1\nbytes 1 x\n", b"script line 4\n")?);
    Ok(())
}

/// Whether a line is bad, of a connection that has closed.
fn is_bad_then(rt: &HostRuntime, line: &[u8]) -> Result<bool, Fail> {
    let alloc = rt.alloc();
    let mut script = script_of(alloc, true, b"open 1 w\nend 1\nturn w 1\n")?;
    script.extend_from_slice(line)?;
    let ran = run_script(alloc, &script, 4096)?;
    Ok(
        ran.status == 4
            && ran.out.bytes() == b"sent\t1\t\nclosed\t1\tended\n".as_slice()
            && ran.err.bytes() == b"script line 5\n".as_slice(),
    )
}

#[test]
fn a_connection_that_has_closed_is_open_no_more(rt: HostRuntime) -> Result<(), Fail> {
    assert!(rt; is_bad_then(&rt, b"open\t1\tw\n")?);
    assert!(rt; is_bad_then(&rt, b"bytes\t1\tx\n")?);
    assert!(rt; is_bad_then(&rt, b"end\t1\n")?);
    assert!(rt; is_bad_then(&rt, b"room\t1\t1\n")?);
    assert!(rt; is_bad_then(&rt, b"fault\t1\n")?);
    assert!(rt; is_bad_then(&rt, b"turn\tw\t1\n")?);
    Ok(())
}

#[test]
fn a_turn_names_connections_of_its_port_once(rt: HostRuntime) -> Result<(), Fail> {
    assert!(rt; is_bad(&rt, b"open 1 w\nturn r 1\n", b"script line 3\n")?);
    assert!(rt; is_bad(&rt, b"open 1 w\nturn w 1 1\n", b"script line 3\n")?);
    assert!(rt; is_bad(&rt, b"open 1 w\nturn w 1 01\n", b"script line 3\n")?);
    assert!(rt; is_bad(&rt, b"open 1 w\nturn w 1 2\n", b"script line 3\n")?);
    assert!(rt; is_bad(&rt, b"open 1 w\nopen 2 r\nturn w 1 2\n", b"script line 4\n")?);
    Ok(())
}

#[test]
fn the_head_is_over_with_the_first_event(rt: HostRuntime) -> Result<(), Fail> {
    assert!(rt; is_bad(&rt, b"open 1 w\nlimit bytes 9\n", b"script line 3\n")?);
    assert!(rt; is_bad(&rt, b"open 1 w\nsecret r k\n", b"script line 3\n")?);
    assert!(rt; is_bad(&rt, b"open 1 w\ntable x\n", b"script line 3\n")?);
    assert!(rt; is_bad(&rt, b"show test t\nlimit bytes 9\n", b"script line 3\n")?);
    Ok(())
}

#[test]
fn a_head_line_comes_once(rt: HostRuntime) -> Result<(), Fail> {
    assert!(rt; is_bad(&rt, b"limit bytes 9\nlimit bytes 9\n", b"script line 3\n")?);
    assert!(rt;
        is_bad(
            &rt,
            b"secret r k\nsecret w k\nsecret r k\n",
            b"script line 4\n"
        )?
    );
    Ok(())
}

#[test]
fn what_came_before_is_printed_and_what_follows_is_not(rt: HostRuntime) -> Result<(), Fail> {
    let alloc = rt.alloc();
    let lines: &[u8] = b"open 1 w\nbytes 1 x\x01J\nturn w 1\n\nturn w 1\n";
    let ran = run_script(alloc, &script_of(alloc, true, lines)?, 7)?;
    assert_eq!(rt; ran.status, 4);
    assert!(rt; ran.out.bytes() == b"sent\t1\t1\x01I1\x01Icmd\x01J\n".as_slice());
    assert!(rt; ran.err.bytes() == b"script line 5\n".as_slice());
    Ok(())
}

/// Whether a table line of the script breaks the rule that is said.
fn breaks(rt: &HostRuntime, with_table: bool, lines: &[u8], said: &[u8]) -> Result<bool, Fail> {
    let alloc = rt.alloc();
    let script = script_of(alloc, with_table, lines)?;
    let ran = run_script(alloc, &script, 7)?;
    Ok(ran.status == 3 && ran.out.bytes().is_empty() && ran.err.bytes() == said)
}

#[test]
fn a_table_line_is_cut_or_of_another_form(rt: HostRuntime) -> Result<(), Fail> {
    assert!(rt; breaks(&rt, false, b"table\n", b"schema line 1 badkind 1\n")?);
    assert!(rt; breaks(&rt, true, b"table test u\n", b"schema line 2 badkind 3\n")?);
    assert!(rt; breaks(&rt, true, b"table test u c\n", b"schema line 2 badkind 4\n")?);
    assert!(rt; breaks(&rt, true, b"table \x00 u\n", b"schema line 2 badkind 1\n")?);
    assert!(rt;
        breaks(
            &rt,
            true,
            b"limit bytes 9\ntable test u c id real\n",
            b"schema line 3 badkind 5\n"
        )?
    );
    assert!(rt;
        breaks(
            &rt,
            true,
            b"table test u c id int null \x00 i PRIMARY primary id\n",
            b"schema line 2 badkind 11\n"
        )?
    );
    Ok(())
}

#[test]
fn a_table_line_has_a_bad_name_or_one_twice(rt: HostRuntime) -> Result<(), Fail> {
    assert!(rt; breaks(&rt, true, b"table 9 u\n", b"schema line 2 badname 1\n")?);
    assert!(rt; breaks(&rt, true, b"table test \n", b"schema line 2 badname 2\n")?);
    assert!(rt; breaks(&rt, true, b"table test t\n", b"schema line 2 duplicate 2\n")?);
    assert!(rt;
        breaks(
            &rt,
            true,
            b"table test t c id int not \x00 i PRIMARY primary id\n",
            b"schema line 2 duplicate 2\n"
        )?
    );
    assert!(rt;
        breaks(
            &rt,
            true,
            b"table test u c id int not \x00 c ID int not \x00\n",
            b"schema line 2 duplicate 9\n"
        )?
    );
    Ok(())
}

#[test]
fn a_table_line_has_no_primary_index(rt: HostRuntime) -> Result<(), Fail> {
    assert!(rt;
        breaks(
            &rt,
            false,
            b"table test t c id int not \x00\n",
            b"schema line 1 noprimary 8\n"
        )?
    );
    Ok(())
}
