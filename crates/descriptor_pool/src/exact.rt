ghost use Rattle.pool_contents.specs.Same.{contents-exact};

use crate::DescriptorPool;
use plain_data::ExactEq;

impl ExactEq for DescriptorPool {
    ghost exact = { contents-exact };
}
