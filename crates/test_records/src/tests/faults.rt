//! Bytes with each fault, and where it is.

use descriptor_decoding::{DecodeError, decode};
use std::test::*;
use wire_format::WireFaultKind;

/// Bytes, and the kind and the offset of their first fault.
const FAULTS: [(&[u8], WireFaultKind, usize); 18] = [
    // A tag, the length of a name, a payload, two numbers of fixed length, and a group.
    (&[128], WireFaultKind::Truncated, 0),
    (&[10], WireFaultKind::Truncated, 1),
    (&[10, 2, 8], WireFaultKind::Truncated, 2),
    (&[9, 0, 0, 0, 0, 0, 0, 0], WireFaultKind::Truncated, 1),
    (&[13, 0, 0, 0], WireFaultKind::Truncated, 1),
    (&[19, 8, 1], WireFaultKind::Truncated, 3),
    // The same within a file: its name has a byte less than its length says.
    (&[10, 3, 10, 2, 97], WireFaultKind::Truncated, 4),
    (
        &[16, 128, 128, 128, 128, 128, 128, 128, 128, 128, 128, 0],
        WireFaultKind::LongVarint,
        1,
    ),
    // A tag of six bytes, and one of 2^32.
    (&[138, 128, 128, 128, 128, 0, 0], WireFaultKind::LargeTag, 0),
    (&[138, 128, 128, 128, 16, 0], WireFaultKind::LargeTag, 0),
    (&[10, 0, 2, 0], WireFaultKind::FieldNumberZero, 2),
    (&[14], WireFaultKind::UnknownWireType, 0),
    (&[15], WireFaultKind::UnknownWireType, 0),
    // An end of a group that is not open, and one of another group.
    (&[12], WireFaultKind::EndGroup, 0),
    (&[19, 28], WireFaultKind::EndGroup, 1),
    // A name, and a comment after another.
    (&[10, 3, 10, 1, 255], WireFaultKind::NotUtf8, 4),
    (
        &[10, 9, 74, 7, 10, 5, 26, 0, 26, 1, 128],
        WireFaultKind::NotUtf8,
        10,
    ),
    // Options of which nothing is read.
    (&[10, 3, 66, 1, 8], WireFaultKind::Truncated, 5),
];

#[test]
fn faults_are_told(rt: HostRuntime) {
    for (bytes, kind, at) in FAULTS.iter() {
        match decode(rt.alloc(), bytes) {
            Err(DecodeError::Fault(fault)) => {
                assert_eq!(rt; fault.kind, *kind);
                assert_eq!(rt; fault.at, *at);
            }
            _ => assert!(rt; false),
        }
    }
}
