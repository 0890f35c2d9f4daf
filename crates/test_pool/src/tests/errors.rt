//! A fault that is made by hand, as it is printed.

use plain_data::{Items, Text};
use pool_faults::{DescriptorError, DescriptorErrorKind, Label};
use std::alloc::{AllocError, Global};
use std::test::Fail;

/// A label whose place in the source isn't known.
fn label(alloc: Global) -> Result<Label, AllocError> {
    Ok(Label {
        file: Text::from_str(alloc, "a.proto")?,
        path: Items::new(alloc),
        span: None,
    })
}

/// The error of a number in a reserved range that ends with an exclusive number.
fn reserved_error(alloc: Global, end: i32) -> Result<DescriptorError, AllocError> {
    let (defined, found) = (label(alloc)?, label(alloc)?);
    let fault = DescriptorErrorKind::FieldNumberInReservedRange {
        number: 5,
        start: 0,
        end,
        defined,
        found,
    };
    Ok(DescriptorError::new(vec![in alloc; fault]?, 0))
}

fn error_report(alloc: Global, error: &DescriptorError) -> Result<String, AllocError> {
    format!(in alloc; "{error}")
}

fn reserved_report(alloc: Global, end: i32) -> Result<String, AllocError> {
    let error = reserved_error(alloc, end)?;
    error_report(alloc, &error)
}

#[test]
fn the_last_number_of_a_range_may_be_below_the_least(rt: HostRuntime) -> Result<(), Fail> {
    let report = reserved_report(rt.alloc(), i32::MIN)?;
    let wanted = "field number '5' conflicts with reserved range '0 to -2147483649'";
    assert!(rt; report.as_str() == wanted, "{report}");
    Ok(())
}
