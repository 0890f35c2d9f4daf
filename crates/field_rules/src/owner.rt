use proto_types::DescriptorProto;
use record_walk::Place;

/// A message at a place, for what its fields and its extensions are checked with.
#[derive(Clone, Copy)]
pub struct Owner<'a> {
    pub place: Place<'a, 'a>,
    pub message: &'a DescriptorProto,
}
