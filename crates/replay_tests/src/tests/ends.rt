//! How a run ends: its statuses, and what is said on the error output.
use super::dialogue::{run_script, script_of};
use super::*;
use hs_outside::{MemSink, MemSource};
use std::alloc::{AllocError, Global};
use std::test::Fail;

#[test]
fn the_empty_script_prints_nothing(rt: HostRuntime) -> Result<(), Fail> {
    let ran = run_script(rt.alloc(), b"", 1)?;
    assert_eq!(rt; ran.status, 0);
    assert!(rt; ran.out.bytes().is_empty() && ran.err.bytes().is_empty());
    Ok(())
}

/// How a run is to fail: the numbers of reads, writes and words on the error output.
#[derive(Clone, Copy)]
struct Faults<'a> {
    reads: &'a [u64],
    writes: &'a [u64],
    says: &'a [u64],
}

fn run_failing(
    alloc: Global,
    texts: &[&str],
    script: &[u8],
    faults: Faults<'_>,
) -> Result<(u8, MemSink, MemSink), AllocError> {
    let mut words = Vec::new(alloc);
    for text in texts {
        words.push(String::from_str(alloc, *text)?)?;
    }
    let mut script = MemSource::new(alloc, script, faults.reads)?.in_pieces(100);
    let mut out = MemSink::new(alloc, faults.writes)?.in_pieces(5);
    let mut err = MemSink::new(alloc, faults.says)?;
    let status = top(alloc, &words, &mut script, &mut out, &mut err);
    Ok((status, out, err))
}

const NONE: Faults<'static> = Faults {
    reads: &[],
    writes: &[],
    says: &[],
};

#[test]
fn words_that_are_no_command(rt: HostRuntime) -> Result<(), Fail> {
    let alloc = rt.alloc();
    let cases: [&[&str]; 6] = [
        &[],
        &["replay"],
        &["replay", ""],
        &["play", "j"],
        &["replay", "j", "k"],
        &["load", "0", "j"],
    ];
    for words in cases {
        let (status, out, err) = run_failing(alloc, words, b"x\n", NONE)?;
        assert_eq!(rt; status, 2);
        assert!(rt; out.bytes().is_empty());
        assert!(rt;
            err.bytes()
                == b"usage: hs_tool replay <journal> or hs_tool load <n> <journal>\n".as_slice()
        );
    }
    Ok(())
}

#[test]
fn faults_end_a_run(rt: HostRuntime) -> Result<(), Fail> {
    let alloc = rt.alloc();
    let script = script_of(
        alloc,
        true,
        b"open 1 w\nbytes 1 x\x01J\nturn w 1\nturn w 1\n",
    )?;
    let first: &[u8] = b"sent\t1\t1\x01I1\x01Icmd\x01J\n";
    let cases: [(Faults<'_>, u8, &[u8], &[u8]); 4] = [
        (
            Faults {
                reads: &[1],
                ..NONE
            },
            5,
            b"",
            b"read fault\n",
        ),
        (
            Faults {
                reads: &[2],
                ..NONE
            },
            5,
            b"",
            b"read fault\n",
        ),
        (
            Faults {
                writes: &[1],
                ..NONE
            },
            6,
            b"",
            b"write fault\n",
        ),
        // Four writes and a flush print the first line.
        (
            Faults {
                writes: &[6],
                ..NONE
            },
            6,
            first,
            b"write fault\n",
        ),
    ];
    for (faults, status, sent, said) in cases {
        let (ended, out, err) = run_failing(alloc, &["replay", "j"], &script, faults)?;
        assert_eq!(rt; ended, status);
        assert!(rt; out.bytes() == sent);
        assert!(rt; err.bytes() == said);
    }
    Ok(())
}

#[test]
fn a_fault_of_the_error_output_changes_no_status(rt: HostRuntime) -> Result<(), Fail> {
    let faults = Faults { says: &[1], ..NONE };
    let (status, _, err) = run_failing(rt.alloc(), &["replay", "j"], b"x\n", faults)?;
    assert_eq!(rt; status, 4);
    assert!(rt; err.bytes().is_empty());
    Ok(())
}
