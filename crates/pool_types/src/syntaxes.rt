//! The syntax that a file is written in.

ghost use Rattle.std.specs.Prelude.{◌≡◌, map};
ghost use Rattle.std.specs.Option.{option_copied};
ghost use Rattle.pool_types.specs.Syntaxes.{known_syntax, syntax_of, syntax_at};

use crate::contents::FileDescriptorInner;
use crate::kinds::Syntax;
use proto_types::FileDescriptorProto;

/// The language that a file's `syntax` names: "proto2", in which a file is written that names none,
/// or "proto3". There is none where it is any other text, and the empty one is such a text
/// (descriptor.proto).
pub fn known_syntax(written: Option<&str>) -> Option<Syntax>
    ensures { result ≡ known_syntax (option_copied written.entry) }
{
    match written {
        None | Some("proto2") => Some(Syntax::Proto2),
        Some("proto3") => Some(Syntax::Proto3),
        Some(_) => None,
    }
}

/// The language that a file is written in. An unknown one is read as proto2.
pub fn syntax_of(file: &FileDescriptorProto) -> Syntax
    ensures { result ≡ syntax_of file.now }
{
    known_syntax(written_syntax(file)).unwrap_or(Syntax::Proto2)
}

/// The language of the file with an index, from 0 in the order of linking; where there is no such
/// file, proto2.
pub fn syntax_at(files: &[FileDescriptorInner], file: u32) -> Syntax
    ensures { result ≡ syntax_at (map (λ f. f.raw) files.now) file }
{
    match files.get(file as usize) {
        Some(found) => syntax_of(&found.raw),
        None => Syntax::Proto2,
    }
}

/// The `syntax` of a file, as it is written there.
fn written_syntax(file: &FileDescriptorProto) -> Option<&str>
    ensures { option_copied result ≡ file.now.syntax }
{
    file.syntax.as_ref().map(|text| text.as_str())
}
