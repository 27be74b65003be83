//! The most that there may be of something, and one more.
use super::dialogue::{push_tabbed, run_script, script_of};
use std::alloc::{AllocError, Global};
use std::test::Fail;

/// Appends a number.
fn push_number(out: &mut Vec<u8>, number: u32) -> Result<(), AllocError> {
    let mut digits = itoa::Buffer::new();
    out.extend_from_slice(digits.format(number).as_bytes())?;
    Ok(())
}

/// Appends a text so many times, each time with its number between the two parts.
fn push_numbered(
    out: &mut Vec<u8>,
    before: &[u8],
    count: u32,
    behind: &[u8],
) -> Result<(), AllocError> {
    for number in 0u32..count {
        push_tabbed(out, before)?;
        push_number(out, number)?;
        push_tabbed(out, behind)?;
    }
    Ok(())
}

/// Appends a byte so many times.
fn push_bytes(out: &mut Vec<u8>, byte: u8, count: usize) -> Result<(), AllocError> {
    for _ in 0..count {
        out.push(byte)?;
    }
    Ok(())
}

/// Whether a script is carried out to its end and prints just this.
fn prints(alloc: Global, script: &[u8], printed: &[u8]) -> Result<bool, AllocError> {
    let ran = run_script(alloc, script, 4096)?;
    Ok(ran.status == 0 && ran.out.bytes() == printed && ran.err.bytes().is_empty())
}

/// Whether a script ends with this status, prints nothing, and this is said.
fn says(alloc: Global, script: &[u8], status: u8, said: &[u8]) -> Result<bool, AllocError> {
    let ran = run_script(alloc, script, 4096)?;
    Ok(ran.status == status && ran.out.bytes().is_empty() && ran.err.bytes() == said)
}

// ---- scripts and connections

/// A script that opens so many connections.
fn opening(alloc: Global, count: u32) -> Result<Vec<u8>, AllocError> {
    let mut script = Vec::new(alloc);
    push_numbered(&mut script, b"open ", count, b" r\n")?;
    Ok(script)
}

#[test]
fn connections_are_open_256_at_once(rt: HostRuntime) -> Result<(), Fail> {
    let alloc = rt.alloc();
    let script = opening(alloc, 256)?;
    assert!(rt; prints(alloc, &script, b"")?);
    Ok(())
}

#[test]
fn the_257th_connection_is_no_event(rt: HostRuntime) -> Result<(), Fail> {
    let alloc = rt.alloc();
    let script = opening(alloc, 257)?;
    assert!(rt; says(alloc, &script, 4, b"script line 257\n")?);
    Ok(())
}

#[test]
fn a_connection_that_closes_makes_way_for_one(rt: HostRuntime) -> Result<(), Fail> {
    let alloc = rt.alloc();
    let mut script = opening(alloc, 256)?;
    script.extend_from_slice(b"end\t7\nturn\tr\t7\nopen\t256\tw\nturn\tw\t256\n")?;
    assert!(rt;
        prints(
            alloc,
            &script,
            b"sent\t7\t\nclosed\t7\tended\nsent\t256\t\n"
        )?
    );
    Ok(())
}

#[test]
fn the_greatest_number_is_one(rt: HostRuntime) -> Result<(), Fail> {
    let alloc = rt.alloc();
    let mut script = script_of(alloc, false, b"limit bytes 268435456\nopen 4294967295 w\n")?;
    push_tabbed(
        &mut script,
        b"room 4294967295 4294967295\nturn w 4294967295\n",
    )?;
    assert!(rt; prints(alloc, &script, b"sent\t4294967295\t\n")?);
    Ok(())
}

/// A script whose second line has so many bytes.
fn with_line(alloc: Global, len: usize) -> Result<Vec<u8>, AllocError> {
    let mut script = script_of(alloc, false, b"open 1 w\nbytes 1 ")?;
    push_bytes(&mut script, b'x', len.saturating_sub(8))?;
    Ok(script)
}

#[test]
fn a_script_line_has_65536_bytes(rt: HostRuntime) -> Result<(), Fail> {
    let alloc = rt.alloc();
    let mut script = with_line(alloc, 65_536)?;
    script.push(b'\n')?;
    assert!(rt; prints(alloc, &script, b"")?);
    Ok(())
}

#[test]
fn a_script_line_of_65537_bytes_is_bad(rt: HostRuntime) -> Result<(), Fail> {
    let alloc = rt.alloc();
    let mut script = with_line(alloc, 65_537)?;
    script.push(b'\n')?;
    assert!(rt; says(alloc, &script, 4, b"script line 2\n")?);
    Ok(())
}

#[test]
fn a_script_line_that_is_too_long_is_bad_before_it_ends(rt: HostRuntime) -> Result<(), Fail> {
    let alloc = rt.alloc();
    let script = with_line(alloc, 70_000)?;
    assert!(rt; says(alloc, &script, 4, b"script line 2\n")?);
    Ok(())
}

#[test]
fn a_turn_receives_131072_bytes(rt: HostRuntime) -> Result<(), Fail> {
    let alloc = rt.alloc();
    let mut script = script_of(alloc, false, b"open 1 w\n")?;
    // 130 lines of 1,024 bytes, of which 128 are received.
    for _ in 0..130 {
        script.extend_from_slice(b"bytes\t1\t")?;
        push_bytes(&mut script, b'x', 1023)?;
        script.extend_from_slice(b"\x01J\n")?;
    }
    script.extend_from_slice(b"turn\tw\t1\nturn\tw\t1\n")?;
    let mut printed = script_of(alloc, false, b"sent 1 ")?;
    push_replies(&mut printed, 128)?;
    printed.extend_from_slice(b"\nsent\t1\t")?;
    push_replies(&mut printed, 2)?;
    printed.push(b'\n')?;
    assert!(rt; prints(alloc, &script, &printed)?);
    Ok(())
}

/// Appends so many replies to lines that ask for nothing.
fn push_replies(out: &mut Vec<u8>, count: usize) -> Result<(), AllocError> {
    for _ in 0..count {
        out.extend_from_slice(b"1\x01I1\x01Icmd\x01J")?;
    }
    Ok(())
}

#[test]
fn a_connection_opens_1024_ids(rt: HostRuntime) -> Result<(), Fail> {
    let alloc = rt.alloc();
    let mut script = script_of(alloc, true, b"open 1 w\n")?;
    let mut printed = Vec::new(alloc);
    for id in 0u32..1025 {
        script.extend_from_slice(b"bytes\t1\tP\x01I")?;
        push_number(&mut script, id)?;
        script.extend_from_slice(b"\x01Itest\x01It\x01IPRIMARY\x01Iid\x01J\nturn\tw\t1\n")?;
        let sent: &[u8] = if id < 1024 {
            b"sent\t1\t0\x01I1\x01J\n"
        } else {
            b"sent\t1\t21\x01I1\x01Iids\x01J\n"
        };
        printed.extend_from_slice(sent)?;
    }
    // One that is open may be opened again.
    script.extend_from_slice(
        b"bytes\t1\tP\x01I7\x01Itest\x01It\x01IPRIMARY\x01In\x01J\nturn\tw\t1\n",
    )?;
    printed.extend_from_slice(b"sent\t1\t0\x01I1\x01J\n")?;
    assert!(rt; prints(alloc, &script, &printed)?);
    Ok(())
}

// ---- tables

/// A script of so many tables.
fn tables(alloc: Global, count: u32) -> Result<Vec<u8>, AllocError> {
    let mut script = Vec::new(alloc);
    let behind = b" c id int not \x00 i PRIMARY primary id\n";
    push_numbered(&mut script, b"table test t", count, behind)?;
    Ok(script)
}

#[test]
fn tables_are_64(rt: HostRuntime) -> Result<(), Fail> {
    let alloc = rt.alloc();
    let mut script = tables(alloc, 64)?;
    script.extend_from_slice(b"show\ttest\tt63\n")?;
    assert!(rt; prints(alloc, &script, b"")?);
    Ok(())
}

#[test]
fn the_65th_table_is_one_too_many(rt: HostRuntime) -> Result<(), Fail> {
    let alloc = rt.alloc();
    let script = tables(alloc, 65)?;
    assert!(rt; says(alloc, &script, 3, b"schema line 65 toomany 0\n")?);
    Ok(())
}

/// A script of a table of so many columns of numbers, with these indexes.
fn columns(alloc: Global, count: u32, indexes: &[u8]) -> Result<Vec<u8>, AllocError> {
    let mut script = script_of(alloc, false, b"table test t")?;
    push_numbered(&mut script, b" c c", count, b" int not \x00")?;
    push_tabbed(&mut script, indexes)?;
    script.push(b'\n')?;
    Ok(script)
}

#[test]
fn columns_of_a_table_are_64(rt: HostRuntime) -> Result<(), Fail> {
    let alloc = rt.alloc();
    let script = columns(alloc, 64, b" i PRIMARY primary c63")?;
    assert!(rt; prints(alloc, &script, b"")?);
    Ok(())
}

#[test]
fn the_65th_column_is_one_too_many(rt: HostRuntime) -> Result<(), Fail> {
    let alloc = rt.alloc();
    let script = columns(alloc, 65, b" i PRIMARY primary c63")?;
    assert!(rt; says(alloc, &script, 3, b"schema line 1 toomany 323\n")?);
    Ok(())
}

/// A script of a table of one column with so many indexes beside the primary one.
fn indexes(alloc: Global, count: u32) -> Result<Vec<u8>, AllocError> {
    let mut script = script_of(
        alloc,
        false,
        b"table test t c id int not \x00 i PRIMARY primary id",
    )?;
    push_numbered(&mut script, b" i i", count, b" index id")?;
    script.push(b'\n')?;
    Ok(script)
}

#[test]
fn indexes_of_a_table_are_16(rt: HostRuntime) -> Result<(), Fail> {
    let alloc = rt.alloc();
    let script = indexes(alloc, 15)?;
    assert!(rt; prints(alloc, &script, b"")?);
    Ok(())
}

#[test]
fn the_17th_index_is_one_too_many(rt: HostRuntime) -> Result<(), Fail> {
    let alloc = rt.alloc();
    let script = indexes(alloc, 16)?;
    assert!(rt; says(alloc, &script, 3, b"schema line 1 toomany 72\n")?);
    Ok(())
}

#[test]
fn parts_of_an_index_are_8(rt: HostRuntime) -> Result<(), Fail> {
    let alloc = rt.alloc();
    let script = columns(alloc, 9, b" i PRIMARY primary c8,c7,c6,c5,c4,c3,c2,c1")?;
    assert!(rt; prints(alloc, &script, b"")?);
    Ok(())
}

#[test]
fn the_ninth_part_is_one_too_many(rt: HostRuntime) -> Result<(), Fail> {
    let alloc = rt.alloc();
    let script = columns(alloc, 9, b" i PRIMARY primary c8,c7,c6,c5,c4,c3,c2,c1,c0")?;
    assert!(rt; says(alloc, &script, 3, b"schema line 1 toomany 51\n")?);
    Ok(())
}

#[test]
fn a_row_may_come_to_16384_bytes(rt: HostRuntime) -> Result<(), Fail> {
    let alloc = rt.alloc();
    let text: &[u8] = b"table test t c v bytes:16316 not \x00 i PRIMARY primary v\n";
    let both: &[u8] =
        b"table test u c id int not \x00 c v bytes:16308 null \x00 i PRIMARY primary id\n";
    let mut script = script_of(alloc, false, text)?;
    push_tabbed(&mut script, both)?;
    assert!(rt; prints(alloc, &script, b"")?);
    Ok(())
}

#[test]
fn a_larger_row_is_too_large(rt: HostRuntime) -> Result<(), Fail> {
    let alloc = rt.alloc();
    let line: &[u8] =
        b"table test u c id int not \x00 c v bytes:16309 null \x00 i PRIMARY primary id\n";
    let script = script_of(alloc, false, line)?;
    assert!(rt; says(alloc, &script, 3, b"schema line 1 toomany 17\n")?);
    Ok(())
}

#[test]
fn texts_of_a_column_may_have_16316_bytes(rt: HostRuntime) -> Result<(), Fail> {
    let alloc = rt.alloc();
    let script = script_of(alloc, false, b"table test t c v bytes:16317 not \x00\n")?;
    assert!(rt; says(alloc, &script, 3, b"schema line 1 badkind 5\n")?);
    Ok(())
}

/// A script of a table whose name has so many bytes.
fn named(alloc: Global, len: usize) -> Result<Vec<u8>, AllocError> {
    let mut script = script_of(alloc, false, b"table test ")?;
    push_bytes(&mut script, b't', len)?;
    push_tabbed(&mut script, b" c id int not \x00 i PRIMARY primary id\n")?;
    Ok(script)
}

#[test]
fn a_name_has_64_bytes(rt: HostRuntime) -> Result<(), Fail> {
    let alloc = rt.alloc();
    let script = named(alloc, 64)?;
    assert!(rt; prints(alloc, &script, b"")?);
    Ok(())
}

#[test]
fn a_name_of_65_bytes_is_none(rt: HostRuntime) -> Result<(), Fail> {
    let alloc = rt.alloc();
    let script = named(alloc, 65)?;
    assert!(rt; says(alloc, &script, 3, b"schema line 1 badname 2\n")?);
    Ok(())
}
