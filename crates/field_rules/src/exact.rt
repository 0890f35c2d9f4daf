ghost use Rattle.field_rules.specs.Exact.{escape_fault-exact, value_fault-exact};

use crate::escape_faults::{EscapeFault, ValueFault};
use plain_data::ExactEq;

impl ExactEq for EscapeFault {
    ghost exact = { escape_fault-exact };
}

impl ExactEq for ValueFault {
    ghost exact = { value_fault-exact };
}
