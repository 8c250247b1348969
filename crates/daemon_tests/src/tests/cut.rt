//! An alive of which only the first bytes came, and tables that are full.

use super::runs::{ALIVE, HEAD, Texts, run, texts_over};
use link_daemon::Status;
use std::alloc::{AllocError, Global};
use std::sync::Wait;
use std::test::Fail;
use std::thread::Threads;

/// What `decode` says of the first bytes of the alive, from none to 19.
const SHORT: &[u8] = b"fault short 0\nfault short 1\nfault short 2\nfault short 3\nfault short 4\n\
    fault short 5\nfault short 6\nfault short 7\nfault short 8\nfault short 9\n\
    fault short 10\nfault short 11\nfault short 12\nfault short 13\nfault short 14\n\
    fault short 15\nfault short 16\nfault short 17\nfault short 18\nfault short 19\n";

const WHOLE_BUT_ENDPOINT: &[u8] =
    b"alive 4142434445464748 5 0 500000 0 0 4142434445464748 0 0 0 -\n";

/// What it says of more of them, from 20 on: how many lines say it, and what. Entries begin at 20, 52, 68 and 93.
const CUTS: &[(u8, &[u8])] = &[
    (1, b"fault missing 746d6c6e\n"),
    (31, b"fault cut 0\n"),
    (1, b"fault missing 73657373\n"),
    (15, b"fault cut 32\n"),
    (1, WHOLE_BUT_ENDPOINT),
    (24, b"fault cut 48\n"),
    (1, WHOLE_BUT_ENDPOINT),
    (13, b"fault cut 73\n"),
];

#[test]
fn an_alive_is_cut_at_each_of_its_bytes(rt: HostRuntime) -> Result<(), Fail> {
    let input = fronts(rt.alloc())?;
    let answers = cut_answers(rt.alloc())?;
    let mut texts = texts_over(rt.alloc(), &input, 4096, 0, 0)?;
    assert!(rt; is_done(&rt, rt.alloc(), "decode", &mut texts)?);
    assert!(rt; texts.out.bytes() == answers.as_slice());
    Ok(())
}

// A line for each number of bytes, from none to one less than all.
fn fronts(alloc: Global) -> Result<Vec<u8>, AllocError> {
    let mut text = Vec::new(alloc);
    for count in 0..107_usize {
        text.extend_from_slice(ALIVE.as_bytes().get(..2 * count).unwrap_or(&[]))?;
        text.push(b'\n')?;
    }
    Ok(text)
}

fn cut_answers(alloc: Global) -> Result<Vec<u8>, AllocError> {
    let mut text = Vec::from_slice(alloc, SHORT)?;
    for (lines, answer) in CUTS {
        for _ in 0..*lines {
            text.extend_from_slice(answer)?;
        }
    }
    Ok(text)
}

/// How many peers there are, whether each is in the node's own session or in one of its own, and the last line of what comes of their
/// alives: a gate has 128 rows, and beside the own session 64 others are known.
const CROWDS: &[(u8, bool, &[u8])] = &[
    (129, true, b"\ndone 129 129 129\n"),
    (65, false, b"\ndone 65 1 65\n"),
];

#[test]
fn a_crowd_is_answered_though_tables_are_full(rt: HostRuntime) -> Result<(), Fail> {
    for (peers, is_one, end) in CROWDS {
        assert!(rt;
            ends_with(&rt, rt.alloc(), *peers, *is_one, end)?,
            "{peers}"
        );
    }
    Ok(())
}

fn ends_with<R: Threads + Wait + Sync>(
    rt: &R,
    alloc: Global,
    peers: u8,
    is_one: bool,
    end: &[u8],
) -> Result<bool, AllocError> {
    let input = crowd(alloc, peers, is_one)?;
    let mut texts = texts_over(alloc, &input, 4096, 0, 0)?;
    Ok(is_done(rt, alloc, "replay", &mut texts)? && texts.out.bytes().ends_with(end))
}

fn is_done<R: Threads + Wait + Sync>(
    rt: &R,
    alloc: Global,
    command: &str,
    texts: &mut Texts,
) -> Result<bool, AllocError> {
    let status = run(rt, alloc, command, &mut texts.input, &mut texts.out)?;
    Ok(status == Status::Done)
}

// An alive of each peer.
fn crowd(alloc: Global, peers: u8, is_one: bool) -> Result<Vec<u8>, AllocError> {
    let mut text = Vec::from_slice(alloc, HEAD.as_bytes())?;
    for number in 0..peers {
        let id = id_of(number);
        text.extend_from_slice(RX)?;
        text.extend_from_slice(&id)?;
        text.extend_from_slice(TIMELINE)?;
        text.extend_from_slice(if is_one { OWN } else { &id })?;
        text.extend_from_slice(START)?;
    }
    Ok(text)
}

// The hex digits of a peer's id, which is PEER0 and three digits.
fn id_of(number: u8) -> [u8; 16] {
    let mut id = *b"5045455230303030";
    id[11] = b'0' + number / 100;
    id[13] = b'0' + number / 10 % 10;
    id[15] = b'0' + number % 10;
    id
}

/// The parts of an alive's line, between which its id and its session stand.
const RX: &[u8] = b"rx 1000100 0 127.0.0.1:20808 5f617364705f760101050000";

const TIMELINE: &[u8] =
    b"746d6c6e00000018000000000007a120000000000000000000000000000000007365737300000008";

const START: &[u8] =
    b"737473740000001100000000000000000000000000000000006d657034000000067f0000015148\n";

/// The id of the node of the head, and so its session.
const OWN: &[u8] = b"5152535455565758";
