use plain_data::{Items, Text};

/// What is to be a descriptor set: its bytes, and the name by which it is told.
#[derive(Drop)]
pub struct Input {
    pub name: Text,
    pub bytes: Items<u8>,
}
