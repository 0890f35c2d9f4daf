ghost use Rattle.std.specs.Prelude.{◌≡◌, ℕ, List};
ghost use Rattle.proto_types.specs.Readers.{text_of};

use proto_types::{EnumValueDescriptorProto, FieldDescriptorProto};

/// A record that stands in a list and has a name: a field of a message, or a value of an enum.
pub(crate) trait Named {
    /// The name, empty where none is given.
    ghost own_name: { Self → List ℕ };

    /// The name, empty where none is given.
    fn own_name(&self) -> &str
        ensures { result.now ≡ own_name self.now };
}

impl Named for FieldDescriptorProto {
    ghost own_name = { λ field. text_of field.name };

    fn own_name(&self) -> &str {
        self.name()
    }
}

impl Named for EnumValueDescriptorProto {
    ghost own_name = { λ value. text_of value.name };

    fn own_name(&self) -> &str {
        self.name()
    }
}

/// How few names stand by themselves in a list of names, so that their bytes are not counted.
pub(crate) const FEW: usize = 64;

/// For how many bytes a list of the names of records has room.
pub(crate) fn list_bytes<R: Named>(records: &[R]) -> usize {
    if records.len() <= FEW {
        return 0;
    }
    name_bytes(records)
}

/// How many bytes the names of records have in all.
pub(crate) fn name_bytes<R: Named>(records: &[R]) -> usize {
    let mut bytes = 0usize;
    for record in records {
        bytes = bytes.saturating_add(record.own_name().len());
    }
    bytes
}
