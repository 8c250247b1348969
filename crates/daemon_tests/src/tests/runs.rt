//! Runs of commands that call no device, and what they read from and write to.

ghost use Rattle.std.specs.Prelude.{◌<◌};

use link_daemon::{SessionLog, Status, link_main};
use link_live::Report;
use lk_outside::{BytesSink, BytesSource, ListAudio, ListPace, ListPort, ListTalk, Sink, Source};
use std::alloc::{AllocError, Global};
use std::slice;
use std::sync::Wait;
use std::thread::Threads;

/// The lines of a head, as a node of its own.
pub const HEAD: &str = "replay 1\nnode QRSTUVWX 1 500000 1 1000000\ngate 127.0.0.1:20809\n";

/// What its opening tells.
const OPENING: &str = "state 0 500000 0 1000000 0 0 0 1 0 1000000 0 0\n";

/// An alive of the node ABCDEFGH in its own session: 500000 microseconds per beat from beat 0 at time 0, no start, the endpoint
/// 127.0.0.1:20808.
pub const ALIVE: &str =
    "5f617364705f7601010500004142434445464748746d6c6e00000018000000000007a1200000000000000000000000000000000073657373000000084142434445464748737473740000001100000000000000000000000000000000006d657034000000067f0000015148";

/// What the node of the head answers.
const RESPONSE: &str =
    "5f617364705f7601020500005152535455565758746d6c6e00000018000000000007a1200000000000000000000000000000000073657373000000085152535455565758737473740000001100000000000000000000000000000000006d657034000000067f0000015149";

/// 29 bytes of 0.
const ZEROS: &str = "0000000000000000000000000000000000000000000000000000000000";

/// What a command reads from and writes to.
#[derive(Drop)]
pub struct Texts {
    pub input: BytesSource,
    pub out: BytesSink,
}

/// A text, and room for 100,000 bytes of output. A read and a write move so many bytes at most, and of each the one of that number fails,
/// from 1; 0 for none.
pub fn texts_over(
    alloc: Global,
    text: &[u8],
    most: usize,
    bad_read: u64,
    bad_write: u64,
) -> Result<Texts, AllocError>
    requires { 0 < most }
{
    let input = source(alloc, text, most, bad_read)?;
    let out = BytesSink::new(alloc, 100_000, most, failing(alloc, bad_write)?)?;
    Ok(Texts { input, out })
}

/// The same over a case's text, as `text_of` says.
pub fn texts_of(
    alloc: Global,
    case: &str,
    most: usize,
    bad_read: u64,
    bad_write: u64,
) -> Result<Texts, AllocError>
    requires { 0 < most }
{
    let text = text_of(alloc, case)?;
    texts_over(alloc, &text, most, bad_read, bad_write)
}

fn source(alloc: Global, text: &[u8], most: usize, bad: u64) -> Result<BytesSource, AllocError>
    requires { 0 < most }
{
    let text = Vec::from_slice(alloc, text)?;
    Ok(BytesSource::new(text, most, failing(alloc, bad)?))
}

// The list of the one call that fails: reads and writes are each the first kind of their object.
fn failing(alloc: Global, call: u64) -> Result<Vec<(u8, u64)>, AllocError> {
    if call == 0 {
        return Ok(Vec::new(alloc));
    }
    Vec::from_slice(alloc, &[(0, call)])
}

/// The words and the devices of a run that calls none of these.
#[derive(Drop)]
struct Devices {
    words: Vec<String>,
    port: ListPort,
    audio: ListAudio,
    talk: ListTalk,
    report: Report,
}

fn no_devices(alloc: Global, words: &str) -> Result<Devices, AllocError> {
    let port = ListPort::new(alloc, Vec::new(alloc), 0, Vec::new(alloc))?;
    let audio = ListAudio::new(alloc, Vec::new(alloc), Vec::new(alloc))?;
    let talk = silent_talk(alloc)?;
    let words = spelled(alloc, words)?;
    Ok(Devices {
        words,
        port,
        audio,
        talk,
        report: Report::new(alloc),
    })
}

/// A talk whose client says nothing, with no room for an answer.
pub fn silent_talk(alloc: Global) -> Result<ListTalk, AllocError> {
    ListTalk::new(alloc, Vec::new(alloc), 1, 0, Vec::new(alloc))
}

/// A log of no run, without room.
pub fn empty_log(alloc: Global) -> SessionLog {
    SessionLog {
        lines: Vec::new(alloc),
    }
}

/// Runs the program on these words, over a port, a device and a talk without contents.
pub fn run<R: Threads + Wait + Sync, S: Source, K: Sink>(
    rt: &R,
    alloc: Global,
    words: &str,
    input: &mut S,
    out: &mut K,
) -> Result<Status, AllocError> {
    let mut devices = no_devices(alloc, words)?;
    Ok(link_main(
        rt,
        alloc,
        &devices.words,
        0,
        input,
        &mut devices.port,
        &mut devices.audio,
        &mut devices.talk,
        &mut ListPace::new(0),
        out,
        &mut devices.report,
        &mut empty_log(alloc),
    ))
}

/// The words of a command line, between which blanks stand.
pub fn spelled(alloc: Global, words: &str) -> Result<Vec<String>, AllocError> {
    let mut spelled = Vec::new(alloc);
    for word in words.split_whitespace() {
        spelled.push(String::from_str(alloc, word)?)?;
    }
    Ok(spelled)
}

/// A case's text. In it `=` stands for the head's lines, `@` for the alive, `&` for the response, and `%` for the line of the opening and
/// `~` for 29 bytes of 0.
pub fn text_of(alloc: Global, case: &str) -> Result<Vec<u8>, AllocError> {
    let mut text = Vec::new(alloc);
    for byte in case.as_bytes() {
        text.extend_from_slice(meant(byte))?;
    }
    Ok(text)
}

fn meant(byte: &u8) -> &[u8] {
    match *byte {
        b'=' => HEAD.as_bytes(),
        b'@' => ALIVE.as_bytes(),
        b'&' => RESPONSE.as_bytes(),
        b'%' => OPENING.as_bytes(),
        b'~' => ZEROS.as_bytes(),
        _ => slice::from_ref(byte),
    }
}
