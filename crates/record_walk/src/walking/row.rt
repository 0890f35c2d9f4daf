ghost use Rattle.std.specs.Prelude.{◌≡◌, ◌<◌, ◌+◌, ◌^◌, length};
ghost use Rattle.record_walk.specs.Walking.{protos_in};

use super::records::Records;

/// How long the path and the scope are in which a list stands.
#[derive(Clone, Copy)]
pub(crate) struct Depth {
    pub(crate) path: usize,
    pub(crate) scope: usize,
}

/// The position of an entry: in the list with this field number, at this position.
#[derive(Clone, Copy)]
pub(crate) struct EntryPosition {
    pub(crate) tag: i32,
    pub(crate) position: usize,
    pub(crate) depth: Depth,
}

impl EntryPosition {
    /// The position of the entry behind it.
    pub(crate) fn next(self) -> EntryPosition
        requires { self.position < 2 ^ 31 }
        ensures { result ≡ record self { position = self.position + 1 } }
    {
        EntryPosition {
            position: self.position + 1,
            ..self
        }
    }
}

impl Depth {
    /// The position of the first entry of a list.
    pub(crate) fn start(self, tag: i32) -> EntryPosition
        ensures { result ≡ record { tag = tag; position = 0; depth = self } }
    {
        EntryPosition {
            tag,
            position: 0,
            depth: self,
        }
    }
}

/// What is left of a list, and the position of the first record of that.
#[derive(Clone, Copy)]
pub(crate) struct Row<'a> {
    pub(crate) records: Records<'a>,
    pub(crate) at: EntryPosition,
    /// There is one.
    ghost filled: { 0 < length (protos_in records) },
}
