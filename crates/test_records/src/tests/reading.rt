//! What numbers of labels and of types read as.

use proto_types::FieldDescriptorProto;
use std::alloc::{AllocError, Global};
use std::test::Fail;

/// The number of a label, the number of a type, and what they read as.
const NUMBERS: &[(Option<i32>, Option<i32>, &str)] = &[
    (None, None, "None None Optional Double"),
    (Some(0), Some(0), "Some(0) Some(0) Optional Double"),
    (Some(1), Some(1), "Some(1) Some(1) Optional Double"),
    (Some(2), Some(2), "Some(2) Some(2) Required Float"),
    (Some(3), Some(3), "Some(3) Some(3) Repeated Int64"),
    (Some(4), Some(4), "Some(4) Some(4) Optional Uint64"),
    (Some(-1), Some(-1), "Some(-1) Some(-1) Optional Double"),
    (Some(9), Some(99), "Some(9) Some(99) Optional Double"),
    (Some(1), Some(5), "Some(1) Some(5) Optional Int32"),
    (Some(1), Some(6), "Some(1) Some(6) Optional Fixed64"),
    (Some(1), Some(7), "Some(1) Some(7) Optional Fixed32"),
    (Some(1), Some(8), "Some(1) Some(8) Optional Bool"),
    (Some(1), Some(9), "Some(1) Some(9) Optional String"),
    (Some(1), Some(10), "Some(1) Some(10) Optional Group"),
    (Some(1), Some(11), "Some(1) Some(11) Optional Message"),
    (Some(1), Some(12), "Some(1) Some(12) Optional Bytes"),
    (Some(1), Some(13), "Some(1) Some(13) Optional Uint32"),
    (Some(1), Some(14), "Some(1) Some(14) Optional Enum"),
    (Some(1), Some(15), "Some(1) Some(15) Optional Sfixed32"),
    (Some(1), Some(16), "Some(1) Some(16) Optional Sfixed64"),
    (Some(2), Some(17), "Some(2) Some(17) Required Sint32"),
    (Some(3), Some(18), "Some(3) Some(18) Repeated Sint64"),
    (Some(1), Some(19), "Some(1) Some(19) Optional Double"),
];

/// The label and the type of a field as they are written, and as they read.
fn label_and_type(
    alloc: Global,
    label: Option<i32>,
    type_: Option<i32>,
) -> Result<String, AllocError> {
    let mut field = FieldDescriptorProto::empty(alloc);
    field.label = label;
    field.type_ = type_;
    let (label, type_) = (field.label, field.type_);
    let (read_label, read_type) = (field.label(), field.field_type());
    format!(in alloc; "{label:?} {type_:?} {read_label:?} {read_type:?}")
}

#[test]
fn numbers_read_as_labels_and_types(rt: HostRuntime) -> Result<(), Fail> {
    for (label, type_, wanted) in NUMBERS {
        let report = label_and_type(rt.alloc(), *label, *type_)?;
        assert!(rt; report.as_str() == *wanted, "{report}");
    }
    Ok(())
}
