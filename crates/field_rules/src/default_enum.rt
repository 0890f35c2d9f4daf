use proto_types::EnumValueDescriptorProto;

/// An enum that the type of a field names.
#[derive(Clone, Copy)]
pub struct DefaultEnum<'n, 'v> {
    pub full_name: &'n str,
    pub values: &'v [EnumValueDescriptorProto],
}
