//! Reading states and pongs.

ghost use Rattle.std.specs.Prelude.{◌≡◌, ◌≤◌, ◌<◌, ◌+◌, ◌^◌, ◌++◌, ℕ, List, length, pos, Some, None, IfSome, IfNone, option_map, unwrap_or};
ghost use Rattle.std.specs.Option.{option_copied};
ghost use Rattle.byteorder.specs.Endian.{big_bytes};
ghost use Rattle.link_payload.specs.Entries.{EntryValue, Spells, IsCutAt, spelled_entry_of, spelled_number_of};
ghost use Rattle.link_payload.specs.Fields.{number_in, start_in, timeline_in, endpoint_in, no_start, state_answer_of, pong_answer_of};
ghost use Rattle.link_payload.specs.Last.{HasLen, state_by_values, pong_by_values};

use crate::fault::PayloadFault;
use crate::fields::{PeerFields, PongFields};
use crate::key::{
    ENDPOINT, ENDPOINT_SIZE, GHOST_TIME, HOST_TIME, PREVIOUS_GHOST_TIME, SESSION, SESSION_SIZE,
    START, START_SIZE, TIME_SIZE, TIMELINE, TIMELINE_SIZE,
};
use crate::last::{KeySize, Keys, last_values};
use crate::range::{pong_in_range, state_in_range};
use byteorder::{BigEndian, ByteOrder};
use lk_base::{Endpoint, NodeId, SessionStart, Timeline, u16_at, u32_at};

// The keys of a state.
const STATE_KEYS: Keys = Keys {
    first: KeySize {
        key: TIMELINE,
        size: TIMELINE_SIZE,
    },
    second: KeySize {
        key: SESSION,
        size: SESSION_SIZE,
    },
    third: KeySize {
        key: START,
        size: START_SIZE,
    },
    fourth: KeySize {
        key: ENDPOINT,
        size: ENDPOINT_SIZE,
    },
};

// The keys of a pong.
const PONG_KEYS: Keys = Keys {
    first: KeySize {
        key: SESSION,
        size: SESSION_SIZE,
    },
    second: KeySize {
        key: GHOST_TIME,
        size: TIME_SIZE,
    },
    third: KeySize {
        key: HOST_TIME,
        size: TIME_SIZE,
    },
    fourth: KeySize {
        key: PREVIOUS_GHOST_TIME,
        size: TIME_SIZE,
    },
};

/// The state in a payload. Entries stand in any order, those of other keys are passed over, and of
/// entries of one key the last counts. `tmln` and `sess` have to be there. Without `stst` the
/// session doesn't play, with zeros, and without `mep4` there is no endpoint. A playing byte other
/// than 0 means playing.
///
/// The faults come in this order: the first entry of a known key with another size; an entry that is
/// cut; the first key that has to be there and has no entry; the first number outside its range, of
/// tempo (1..=2^31 microseconds per beat), beat origin, time origin, beats and stamp (each within
/// 2^60 of 0).
pub fn read_state(payload: &[u8]) -> Result<PeerFields, PayloadFault>
    requires { length payload.now < 2 ^ 32 }
    ensures spelled { (es : List EntryValue) → Spells payload.now es
        → result ≡ state_answer_of es None }
    ensures cut { (n : ℕ) (es : List EntryValue) → IsCutAt payload.now n es
        → result ≡ state_answer_of es (Some n) }
{
    let last = last_values(payload, &STATE_KEYS)?;
    state_of(&StateValues {
        timeline: last.first,
        session: last.second,
        start: last.third,
        endpoint: last.fourth,
    })
}

/// The pong in a payload, likewise: `sess` and `__gt` have to be there, and without `__ht` or `_pgt`
/// that time is 0. Ranges are tried in the order of these keys.
pub fn read_pong(payload: &[u8]) -> Result<PongFields, PayloadFault>
    requires { length payload.now < 2 ^ 32 }
    ensures spelled { (es : List EntryValue) → Spells payload.now es
        → result ≡ pong_answer_of es None }
    ensures cut { (n : ℕ) (es : List EntryValue) → IsCutAt payload.now n es
        → result ≡ pong_answer_of es (Some n) }
{
    let last = last_values(payload, &PONG_KEYS)?;
    pong_of(&PongValues {
        session: last.first,
        ghost_time: last.second,
        host: last.third,
        previous: last.fourth,
    })
}

// The last values of the keys of a state, where they have entries.
#[derive(Clone, Copy)]
struct StateValues<'a> {
    timeline: Option<&'a [u8]>,
    session: Option<&'a [u8]>,
    start: Option<&'a [u8]>,
    endpoint: Option<&'a [u8]>,
}

fn state_of(values: &StateValues<'_>) -> Result<PeerFields, PayloadFault>
    requires timeline { HasLen 24 (option_copied values.now.timeline) }
    requires session { HasLen 8 (option_copied values.now.session) }
    requires start { HasLen 17 (option_copied values.now.start) }
    requires endpoint { HasLen 6 (option_copied values.now.endpoint) }
    ensures { result ≡ state_by_values (option_copied values.now.timeline) (option_copied values.now.session)
        (option_copied values.now.start) (option_copied values.now.endpoint) }
{
    let Some(timeline) = values.timeline else {
        return Err(PayloadFault::Missing { key: TIMELINE });
    };
    let Some(session) = values.session else {
        return Err(PayloadFault::Missing { key: SESSION });
    };
    state_in_range(PeerFields {
        timeline: timeline_of(timeline),
        session: NodeId::from_bytes(session),
        start: start_or_none(values.start),
        endpoint: endpoint_or_none(values.endpoint),
    })
}

// The last values of the keys of a pong, where they have entries.
#[derive(Clone, Copy)]
struct PongValues<'a> {
    session: Option<&'a [u8]>,
    ghost_time: Option<&'a [u8]>,
    host: Option<&'a [u8]>,
    previous: Option<&'a [u8]>,
}

fn pong_of(values: &PongValues<'_>) -> Result<PongFields, PayloadFault>
    requires session { HasLen 8 (option_copied values.now.session) }
    requires ghost_time { HasLen 8 (option_copied values.now.ghost_time) }
    requires host { HasLen 8 (option_copied values.now.host) }
    requires previous { HasLen 8 (option_copied values.now.previous) }
    ensures { result ≡ pong_by_values (option_copied values.now.session) (option_copied values.now.ghost_time)
        (option_copied values.now.host) (option_copied values.now.previous) }
{
    let Some(session) = values.session else {
        return Err(PayloadFault::Missing { key: SESSION });
    };
    let Some(ghost_time) = values.ghost_time else {
        return Err(PayloadFault::Missing { key: GHOST_TIME });
    };
    pong_in_range(PongFields {
        session: NodeId::from_bytes(session),
        ghost_time: time_of(ghost_time),
        host: time_or_zero(values.host),
        previous: time_or_zero(values.previous),
    })
}

fn timeline_of(value: &[u8]) -> Timeline
    requires { length value.now ≡ 24 }
    ensures { result ≡ timeline_in value.now }
{
    let (mpb, rest) = i64_at(value);
    let (beat, rest) = i64_at(rest);
    let (time, _) = i64_at(rest);
    Timeline { mpb, beat, time }
}

fn endpoint_of(value: &[u8]) -> Endpoint
    requires { length value.now ≡ 6 }
    ensures { result ≡ endpoint_in value.now }
{
    let (addr, rest) = u32_at(value);
    let (port, _) = u16_at(rest);
    Endpoint { addr, port }
}

// A playing byte other than 0 means playing.
fn start_or_none(value: Option<&[u8]>) -> SessionStart
    requires { IfSome value (λ bytes. length bytes.now ≡ 17) }
    ensures { result ≡ unwrap_or (option_map start_in (option_copied value.entry)) no_start }
{
    let Some(value) = value else {
        return SessionStart {
            playing: false,
            beats: 0,
            stamp: 0,
        };
    };
    let (playing, rest) = value.split_at(1);
    let (beats, rest) = i64_at(rest);
    let (stamp, _) = i64_at(rest);
    SessionStart {
        playing: playing[0] != 0,
        beats,
        stamp,
    }
}

fn endpoint_or_none(value: Option<&[u8]>) -> Option<Endpoint>
    requires { IfSome value (λ bytes. length bytes.now ≡ 6) }
    ensures { result ≡ option_map endpoint_in (option_copied value.entry) }
{
    let Some(value) = value else {
        return None;
    };
    Some(endpoint_of(value))
}

fn time_or_zero(value: Option<&[u8]>) -> i64
    requires { IfSome value (λ bytes. length bytes.now ≡ 8) }
    ensures { result ≡ unwrap_or (option_map number_in (option_copied value.entry)) (pos 0) }
{
    let Some(value) = value else {
        return 0;
    };
    time_of(value)
}

fn time_of(value: &[u8]) -> i64
    requires { length value.now ≡ 8 }
    ensures { result ≡ number_in value.now }
{
    BigEndian::read_i64(value)
}

fn i64_at(bytes: &[u8]) -> (i64, &[u8])
    requires { 8 ≤ length bytes.now }
    ensures bytes { bytes.now ≡ spelled_number_of result.0 ++ result.1.now }
    ensures len { length result.1.now + 8 ≡ length bytes.now }
{
    let (number, rest) = bytes.split_at(8);
    (BigEndian::read_i64(number), rest)
}
