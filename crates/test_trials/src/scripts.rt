//! The scripts of the batches.
use link_script::files_of;
use proto_types::FileDescriptorProto;
use std::alloc::{AllocError, Global};

/// What the pool has before batches are linked into it: messages, of which one has extensions, an
/// enum, a service.
pub(crate) const FIRST: &str = "file first.proto
package p
message M
field own 1 optional int32 ~ ~
default 7
field text 2 optional string ~ 0
json written
field more 3 repeated message M ~
oneof choice
message Inner
field kind 1 optional enum Kind ~
end
extensions 100 200
reserved 20 30
end
enum Kind
value NONE 0
value SOME 1
end
service Answers
method Ask M .p.M.Inner
end
extend first 100 optional string ~ M
at 4,0,1 2,8,9
end
";

/// A second batch, which is accepted. Its extensions extend messages of the first and of its own.
pub(crate) const SECOND: &str = "file second.proto
package p.q
import first.proto
public 0
message Holder
field kind 20 optional enum Kind ~
default SOME
extensions 1 10
extend inner 102 repeated message Holder .p.M
end
extend note 101 optional string ~ .p.M
extend count 103 optional int32 ~ M
default -3
extend own 4 optional bool ~ Holder
end
file third.proto
package p.r
import second.proto
extend far 104 optional bytes ~ p.M
default \\001\\x02abc
extend other 5 optional enum p.Kind .p.q.Holder
service Further
method Ask .p.M q.Holder
end
end
";

/// A second batch that the first pass refuses, since names are declared twice.
pub(crate) const FAULTY_NAMES: &str = "file second.proto
package p
import first.proto
message Other
field one 1 optional int32 ~ ~
field one 2 optional int32 ~ ~
end
enum Kind
value LATER 1
end
at 4,0,2,1,1 4,2,9
end
";

/// A second batch that the second pass refuses: by types, by numbers, and by an extension whose
/// number one of the first batch has.
pub(crate) const FAULTY_TYPES: &str = "file second.proto
package p.q
import first.proto
message Other
field one 1 optional message Missing ~
field two 1 optional enum M ~
field three 3 optional int32 ~ ~
default many
end
extend note 101 optional string ~ .p.M
extend again 100 optional string ~ .p.M
at 4,0,2,0,6 4,2,9
end
";

/// Messages, of which the first has numbers for extensions.
pub(crate) const EXTENDED: &str = "file a.proto
message M
extensions 100 200
end
message A
end
message B
end
end
";

/// A batch behind them with an extension of the first.
pub(crate) const EXTENDING: &str = "file b.proto
import a.proto
extend e 100 optional int32 ~ M
end
";

/// A batch with that extension and with another, whose type is not defined.
pub(crate) const EXTENDING_AND_FAULTY: &str = "file b.proto
import a.proto
extend e 100 optional int32 ~ M
extend g 101 optional message Nope M
end
";

/// The files that a script declares. A text that is no script counts as memory that was refused.
pub(crate) fn files(alloc: Global, script: &str) -> Result<Vec<FileDescriptorProto>, AllocError> {
    match files_of(alloc, script.as_bytes()) {
        Ok(files) => Ok(files),
        Err(_) => Err(AllocError),
    }
}
