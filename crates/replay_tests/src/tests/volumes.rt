//! Replies of millions of bytes: how long one may be, and how many bytes may wait to be sent.
use super::dialogue::{push_tabbed, run_script};
use hs_token::push_text;
use std::alloc::{AllocError, Global};
use std::test::Fail;

/// The bytes of each text.
const TEXT_LEN: usize = 8000;

/// A script, and what it is to print.
#[derive(Drop)]
struct Volume {
    script: Vec<u8>,
    printed: Vec<u8>,
}

/// The text of each row.
fn text(alloc: Global) -> Result<Vec<u8>, AllocError> {
    let mut text = Vec::new(alloc);
    for _ in 0..TEXT_LEN {
        text.push(b'x')?;
    }
    Ok(text)
}

/// Appends a number.
fn push_number(out: &mut Vec<u8>, number: u32) -> Result<(), AllocError> {
    let mut digits = itoa::Buffer::new();
    out.extend_from_slice(digits.format(number).as_bytes())?;
    Ok(())
}

/// A large table and a small one, and a connection that has opened an id on each.
fn opened(alloc: Global) -> Result<Volume, AllocError> {
    let mut script = Vec::new(alloc);
    let large: &[u8] = b"table test b c id int not \x00 c v bytes:8000 not ";
    push_tabbed(&mut script, large)?;
    script.extend_from_slice(&text(alloc)?)?;
    push_tabbed(&mut script, b" i PRIMARY primary id\n")?;
    push_tabbed(
        &mut script,
        b"table test t c id int not \x00 i PRIMARY primary id\n",
    )?;
    push_tabbed(&mut script, b"open 1 w\nbytes 1 ")?;
    push_text(
        &mut script,
        b"P\t1\ttest\tb\tPRIMARY\tid,v\nP\t2\ttest\tt\tPRIMARY\tid\n",
    )?;
    push_tabbed(&mut script, b"\nturn w 1\n")?;
    let mut printed = Vec::new(alloc);
    printed.extend_from_slice(b"sent\t1\t0\x01I1\x01J0\x01I1\x01J\n")?;
    Ok(Volume { script, printed })
}

/// The large table has so many rows, with ids from 1. Their text is left out, so that it is the preset.
fn filled(alloc: Global, rows: u32) -> Result<Volume, AllocError> {
    let mut volume = opened(alloc)?;
    for row in 0u32..rows {
        volume
            .script
            .extend_from_slice(b"bytes\t1\t1\x01I+\x01I1\x01I")?;
        push_number(&mut volume.script, row.saturating_add(1))?;
        volume.script.extend_from_slice(b"\x01J\nturn\tw\t1\n")?;
        volume
            .printed
            .extend_from_slice(b"sent\t1\t0\x01I1\x01J\n")?;
    }
    Ok(volume)
}

/// The connection asks for so many rows.
fn push_find(volume: &mut Volume, rows: u32) -> Result<(), AllocError> {
    volume
        .script
        .extend_from_slice(b"bytes\t1\t1\x01I>=\x01I1\x01I1\x01I")?;
    push_number(&mut volume.script, rows)?;
    volume.script.extend_from_slice(b"\x01I0\x01J\n")?;
    Ok(())
}

/// A turn comes, in which the connection is sent these bytes.
fn push_turn(volume: &mut Volume, sent: &[u8]) -> Result<(), AllocError> {
    volume.script.extend_from_slice(b"turn\tw\t1\n")?;
    volume.printed.extend_from_slice(b"sent\t1\t")?;
    push_text(&mut volume.printed, sent)?;
    volume.printed.push(b'\n')?;
    Ok(())
}

/// Its link takes so many bytes more.
fn push_room(volume: &mut Volume, room: u32) -> Result<(), AllocError> {
    volume.script.extend_from_slice(b"room\t1\t")?;
    push_number(&mut volume.script, room)?;
    volume.script.push(b'\n')?;
    Ok(())
}

/// The reply that has the first rows.
fn reply(alloc: Global, rows: u32) -> Result<Vec<u8>, AllocError> {
    let text = text(alloc)?;
    let mut reply = Vec::new(alloc);
    reply.extend_from_slice(b"0\t2")?;
    for row in 0u32..rows {
        reply.push(b'\t')?;
        push_number(&mut reply, row.saturating_add(1))?;
        reply.push(b'\t')?;
        reply.extend_from_slice(&text)?;
    }
    reply.push(b'\n')?;
    Ok(reply)
}

/// Whether the script is carried out to its end and prints just what it is to print.
fn is_printed(alloc: Global, volume: &Volume) -> Result<bool, AllocError> {
    let ran = run_script(alloc, &volume.script, 65_536)?;
    Ok(
        ran.status == 0
            && ran.out.bytes() == volume.printed.as_slice()
            && ran.err.bytes().is_empty(),
    )
}

#[test]
fn a_reply_of_16010897_bytes_is_sent(rt: HostRuntime) -> Result<(), Fail> {
    let alloc = rt.alloc();
    let mut volume = filled(alloc, 2100)?;
    let whole = reply(alloc, 2000)?;
    assert_eq!(rt; whole.len(), 16_010_897);
    push_find(&mut volume, 2000)?;
    push_turn(&mut volume, &whole)?;
    assert!(rt; is_printed(alloc, &volume)?);
    Ok(())
}

#[test]
fn a_reply_of_more_than_16777216_bytes_is_refused(rt: HostRuntime) -> Result<(), Fail> {
    let alloc = rt.alloc();
    let mut volume = filled(alloc, 2100)?;
    push_find(&mut volume, 2100)?;
    push_turn(&mut volume, b"20\t1\tbig\n")?;
    assert!(rt; is_printed(alloc, &volume)?);
    Ok(())
}

/// Of the reply that has 600 rows the link takes so many bytes, and then no more for now. The peer
/// sends a row for the small table.
fn waiting(alloc: Global, whole: &[u8], room: u32) -> Result<Volume, AllocError> {
    let mut volume = filled(alloc, 600)?;
    push_room(&mut volume, room)?;
    push_find(&mut volume, 600)?;
    push_turn(&mut volume, front(whole, room))?;
    volume.script.extend_from_slice(b"bytes\t1\t")?;
    push_text(&mut volume.script, b"2\t+\t1\t7\n")?;
    volume.script.push(b'\n')?;
    Ok(volume)
}

/// The rows of the small table are shown, and this is printed.
fn push_show(volume: &mut Volume, printed: &[u8]) -> Result<(), AllocError> {
    volume.script.extend_from_slice(b"show\ttest\tt\n")?;
    volume.printed.extend_from_slice(printed)?;
    Ok(())
}

/// So many bytes of the reply.
fn front(whole: &[u8], count: u32) -> &[u8] {
    whole.split_at(whole.len().min(count as usize)).0
}

/// Those behind them.
fn behind(whole: &[u8], count: u32) -> &[u8] {
    whole.split_at(whole.len().min(count as usize)).1
}

#[test]
fn a_reply_of_600_rows_has_4802896_bytes(rt: HostRuntime) -> Result<(), Fail> {
    let whole = reply(rt.alloc(), 600)?;
    assert_eq!(rt; whole.len(), 4_802_896);
    Ok(())
}

#[test]
fn while_4194304_bytes_wait_a_connection_is_heard(rt: HostRuntime) -> Result<(), Fail> {
    let alloc = rt.alloc();
    let whole = reply(alloc, 600)?;
    let mut volume = waiting(alloc, &whole, 608_592)?;
    push_turn(&mut volume, b"")?;
    push_show(&mut volume, b"row\t7\n")?;
    assert!(rt; is_printed(alloc, &volume)?);
    Ok(())
}

#[test]
fn while_4194305_bytes_wait_nothing_is_received(rt: HostRuntime) -> Result<(), Fail> {
    let alloc = rt.alloc();
    let whole = reply(alloc, 600)?;
    let mut volume = waiting(alloc, &whole, 608_591)?;
    push_room(&mut volume, 1)?;
    push_turn(&mut volume, front(behind(&whole, 608_591), 1))?;
    push_show(&mut volume, b"")?;
    // One byte less waits now.
    push_turn(&mut volume, b"")?;
    push_show(&mut volume, b"row\t7\n")?;
    assert!(rt; is_printed(alloc, &volume)?);
    Ok(())
}

#[test]
fn a_fault_closes_a_connection_for_which_4802896_bytes_wait(rt: HostRuntime) -> Result<(), Fail> {
    let alloc = rt.alloc();
    let whole = reply(alloc, 600)?;
    let mut volume = waiting(alloc, &whole, 0)?;
    push_turn(&mut volume, b"")?;
    volume.script.extend_from_slice(b"fault\t1\n")?;
    push_turn(&mut volume, b"")?;
    volume.printed.extend_from_slice(b"closed\t1\tlink\n")?;
    assert!(rt; is_printed(alloc, &volume)?);
    Ok(())
}

#[test]
fn what_waited_for_a_connection_that_closed_is_sent_to_nobody(rt: HostRuntime) -> Result<(), Fail> {
    let alloc = rt.alloc();
    let whole = reply(alloc, 600)?;
    let mut volume = waiting(alloc, &whole, 3)?;
    volume.script.extend_from_slice(b"fault\t1\n")?;
    push_turn(&mut volume, b"")?;
    volume.printed.extend_from_slice(b"closed\t1\tlink\n")?;
    volume
        .script
        .extend_from_slice(b"open\t2\tw\nbytes\t2\tx\x01J\nturn\tw\t2\n")?;
    volume
        .printed
        .extend_from_slice(b"sent\t2\t1\x01I1\x01Icmd\x01J\n")?;
    assert!(rt; is_printed(alloc, &volume)?);
    Ok(())
}
