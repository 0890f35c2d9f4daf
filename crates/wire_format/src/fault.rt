//! What is wrong with bytes, and where.

ghost use Rattle.std.specs.Prelude.{◌≡◌};
ghost use Rattle.wire_format.specs.Faults.{fault};

/// What is wrong with bytes.
#[derive(Clone, Copy, PartialEq, Debug)]
pub enum WireFaultKind {
    /// The message ends within a tag, a number, a payload or a group.
    Truncated,
    /// A varint has more than ten bytes.
    LongVarint,
    /// A tag has more than five bytes, or is 2^32 or more.
    LargeTag,
    /// A field has the number 0.
    FieldNumberZero,
    /// A tag has the wire type 6 or 7.
    UnknownWireType,
    /// A group ends that is not the innermost open one.
    EndGroup,
    /// A text is not UTF-8.
    NotUtf8,
    /// Messages and groups nest too deep.
    TooDeep,
}

/// What is wrong with bytes, and its offset in the whole input, from 0.
#[derive(Clone, Copy, PartialEq, Debug)]
pub struct WireFault {
    pub kind: WireFaultKind,
    pub at: usize,
}

impl WireFault {
    /// A fault where these bytes begin, which end at offset `ends` of the input.
    pub fn new(kind: WireFaultKind, ends: usize, bytes: &[u8]) -> WireFault
        ensures { result ≡ fault kind ends bytes.now }
    {
        WireFault {
            kind,
            at: ends.saturating_sub(bytes.len()),
        }
    }
}
