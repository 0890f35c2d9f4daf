//! Bytes that are read though they are not canonical, each with what they are written as.

use descriptor_encoding::canonical;
use std::alloc::Global;
use std::test::*;

/// Bytes of a set, and what is written of what is read of them.
const CHOICES: [(&[u8], &[u8]); 12] = [
    // A name that is a number is unknown.
    (&[10, 2, 8, 1], &[10, 0]),
    // Field 14, `edition`, is unknown.
    (&[10, 2, 112, 1], &[10, 0]),
    // A group is unknown, with all that is in it.
    (&[10, 4, 123, 8, 1, 124], &[10, 0]),
    // The last name counts.
    (&[10, 6, 10, 1, 97, 10, 1, 98], &[10, 3, 10, 1, 98]),
    // Fields come in the order of their numbers.
    (
        &[10, 6, 18, 1, 98, 10, 1, 97],
        &[10, 6, 10, 1, 97, 18, 1, 98],
    ),
    // A tag of five bytes.
    (&[138, 128, 128, 128, 0, 0], &[10, 0]),
    // The tenth byte of a number: bits past the 64th are dropped.
    (
        &[10, 11, 80, 255, 255, 255, 255, 255, 255, 255, 255, 255, 127],
        &[10, 11, 80, 255, 255, 255, 255, 255, 255, 255, 255, 255, 1],
    ),
    // Numbers that descriptor.proto does not pack are read packed.
    (&[10, 4, 82, 2, 1, 2], &[10, 4, 80, 1, 80, 2]),
    // A path is read unpacked.
    (
        &[10, 8, 74, 6, 10, 4, 8, 1, 8, 2],
        &[10, 8, 74, 6, 10, 4, 10, 2, 1, 2],
    ),
    // Two parts of one message are one.
    (
        &[10, 8, 74, 2, 10, 0, 74, 2, 10, 0],
        &[10, 6, 74, 4, 10, 0, 10, 0],
    ),
    // Options keep the bytes of both parts.
    (
        &[10, 8, 66, 2, 80, 1, 66, 2, 80, 0],
        &[10, 6, 66, 4, 80, 1, 80, 0],
    ),
    // A label that no version of protobuf has.
    (
        &[10, 6, 34, 4, 18, 2, 32, 99],
        &[10, 6, 34, 4, 18, 2, 32, 99],
    ),
];

/// Whether bytes are a set that is written as other bytes.
fn is_written_as(alloc: Global, bytes: &[u8], written: &[u8]) -> bool {
    canonical(alloc, bytes).is_ok_and(|again| again.as_slice() == written)
}

#[test]
fn choices_are_read(rt: HostRuntime) {
    for (bytes, written) in CHOICES.iter() {
        assert!(rt; is_written_as(rt.alloc(), bytes, written), "{bytes:?}");
    }
}
