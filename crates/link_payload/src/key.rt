//! The keys of entries, as Link 3 has them: each is four letters, read as a big-endian number.
//! Beside each the size of its value, in bytes.

/// `tmln`: a timeline.
pub const TIMELINE: u32 = 0x746d_6c6e;

/// Tempo, beat origin and time origin, of eight bytes each.
pub const TIMELINE_SIZE: u32 = 24;

/// `sess`: the id of a session.
pub const SESSION: u32 = 0x7365_7373;

/// An id has eight bytes.
pub const SESSION_SIZE: u32 = 8;

/// `stst`: a session start.
pub const START: u32 = 0x7374_7374;

/// A playing byte, then beats and stamp, of eight bytes each.
pub const START_SIZE: u32 = 17;

/// `mep4`: where a peer answers pings.
pub const ENDPOINT: u32 = 0x6d65_7034;

/// An IPv4 address of four bytes, and a port of two.
pub const ENDPOINT_SIZE: u32 = 6;

/// `__gt`: the ghost time at which a pong is sent.
pub const GHOST_TIME: u32 = 0x5f5f_6774;

/// `__ht`: the host time at which a ping is sent.
pub const HOST_TIME: u32 = 0x5f5f_6874;

/// `_pgt`: the ghost time of the pong before.
pub const PREVIOUS_GHOST_TIME: u32 = 0x5f70_6774;

/// A time has eight bytes.
pub const TIME_SIZE: u32 = 8;
