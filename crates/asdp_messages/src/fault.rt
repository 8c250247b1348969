//! Why a datagram is not read.

ghost use Rattle.std.specs.Prelude.{◌≡◌};
ghost use Rattle.asdp_messages.specs.declared.fault.WireFault.TheVariants.{Payload};

use link_payload::PayloadFault;

/// A fault of a datagram.
#[derive(Clone, Copy, Debug, PartialEq, Eq)]
pub enum WireFault {
    /// Fewer bytes than its header has.
    Short { len: u32 },
    /// It begins as no message of Link does.
    NotLink,
    /// More than 512 bytes.
    TooLong { len: u32 },
    /// The fault of its payload.
    Payload(PayloadFault),
}

impl From<PayloadFault> for WireFault {
    ghost from_gives = { λ fault e. e ≡ Payload fault };

    fn from(fault: PayloadFault) -> WireFault {
        WireFault::Payload(fault)
    }
}
