//! Laws of sets of files and of files, for all their values.

ghost use Rattle.std.specs.Prelude.{◌≡◌, ℕ, ◌<◌, ◌≤◌, ◌^◌, List, length, Ok, Err};
ghost use Rattle.wire_format.specs.declared.fault.WireFault.{WireFault};
ghost use Rattle.proto_types.specs.declared.file.FileDescriptorProto.{FileDescriptorProto};
ghost use Rattle.proto_types.specs.declared.file.FileDescriptorSet.{FileDescriptorSet};
ghost use Rattle.descriptor_decoding.specs.Decoding.{file_of, file_set_of};
ghost use Rattle.descriptor_encoding.specs.Encoding.{file_encoding, set_encoding};
ghost use Rattle.descriptor_encoding.specs.Whole.{IsFile, IsSet};

/// What a whole set of files or a whole file is encoded as is read as itself.
pub fn written_is_read()
    ensures set { (set : FileDescriptorSet) → IsSet 100 set → length (set_encoding set) < 2 ^ 64
        → file_set_of (set_encoding set) ≡ Ok set }
    ensures file { (file : FileDescriptorProto) → IsFile 100 file
        → length (file_encoding file) < 2 ^ 64 → file_of (file_encoding file) ≡ Ok file }
{}

/// What is read of bytes is whole.
pub fn read_is_whole()
    ensures set { (bytes : List ℕ) (set : FileDescriptorSet)
        → file_set_of bytes ≡ Ok set → IsSet 100 set }
    ensures file { (bytes : List ℕ) (file : FileDescriptorProto)
        → file_of bytes ≡ Ok file → IsFile 100 file }
{}

/// The offset of a fault lies in the bytes, or is that of their end.
pub fn faults_lie_within()
    ensures set { (bytes : List ℕ) (f : WireFault)
        → file_set_of bytes ≡ Err f → f.at ≤ length bytes }
    ensures file { (bytes : List ℕ) (f : WireFault)
        → file_of bytes ≡ Err f → f.at ≤ length bytes }
{}
