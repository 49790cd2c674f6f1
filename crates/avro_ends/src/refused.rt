// Why a batch was not delivered.

/// Why a batch was not delivered to another agent. Each closes the link.
#[derive(Clone, Copy, Debug, PartialEq, Eq)]
pub enum DeliverRefused {
    /// The dialer made no link, or the link failed.
    LinkFault,
    /// The peer ended the link before its reply was whole.
    Ended,
    /// 100 reads waited in vain.
    Silent,
    /// The reply told another status than OK: 1 is FAILED, and 2 is UNKNOWN.
    Refused { status: u8 },
    /// The reply is under another serial than the request.
    WrongSerial { got: u32, want: u32 },
    /// The payload of the reply has no spelling from this offset on. The match NONE and a true error flag count as none,
    /// and so does a pack above the limits, at 0.
    BadReply { at: u64 },
    /// 2^40 turns were made.
    Turns,
    /// There was no memory, or the request fits no pack.
    NoMemory,
}
