ghost use Rattle.pool_faults.specs.Exact.{label-exact, fault-exact};

use crate::{DescriptorErrorKind, Label};
use plain_data::ExactEq;

impl ExactEq for Label {
    ghost exact = { label-exact };
}

impl ExactEq for DescriptorErrorKind {
    ghost exact = { fault-exact };
}
