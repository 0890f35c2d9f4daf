/// Where a declaration stands, and its full name.
#[derive(Clone, Copy)]
pub struct Place<'p, 'n> {
    /// The index of its file, from 0 in the order of linking.
    pub file: u32,
    /// The index of the innermost message, enum or service around it.
    pub parent: Option<u32>,
    /// Its index in the pool; of a field, oneof, method or value the position in its list, from 0.
    pub index: u32,
    /// Field numbers and positions, from the file to the declaration.
    pub path: &'p [i32],
    pub full_name: &'n str,
}
