ghost use Rattle.std.specs.Prelude.{◌≡◌, ℕ, List, [], ◌∷◌, ◌++◌, IsTrue, OnOk, None, Some};
ghost use Rattle.pool_types.specs.Contents.{Contents};
ghost use Rattle.record_walk.specs.Visitor.{Progress, HasSeen};
ghost use Rattle.record_walk.specs.Parts.{PartsChangeNothing};
ghost use Rattle.record_walk.specs.Protos.{of_message, of_field, of_oneof, of_service, of_method};
ghost use Rattle.record_walk.specs.Protos.{of_enum, of_value, of_extension};
ghost use Rattle.record_walk.specs.Shown.{Shown, file_shown, shown_as};

use proto_types::{
    DescriptorProto, EnumDescriptorProto, EnumValueDescriptorProto, FieldDescriptorProto,
    FileDescriptorProto, MethodDescriptorProto, OneofDescriptorProto, ServiceDescriptorProto,
};
use std::alloc::AllocError;

/// What is shown the declarations of files, one after another.
///
/// A path is the field numbers and positions, from 0, from the file to the declaration. `file` is
/// the index of its file, `parent` that of the innermost message, enum or service around it, and
/// `index` its own index in the pool; for a field, oneof, method or value it is the position in its
/// list. All count from 0.
///
/// Each call may answer `AllocError` where memory was refused.
pub trait Visitor: Drop {
    /// What it shows once it has been shown a list.
    ghost after: { Self → List Shown → Progress };

    /// That it may be shown a list.
    ghost ready: { Self → List Shown → Type 0 };

    /// The contents that a roll-back would give.
    ghost kept: { Self → Contents };

    /// The names of the `&mut`s that it holds.
    ghost borrows: { Self → List ℕ };

    fn visit_file(
        &mut self,
        path: &[i32],
        index: u32,
        file: &FileDescriptorProto,
    ) -> Result<(), AllocError>
        requires { ready self.old (file_shown path.now index file.now ∷ []) }
        ensures ok { OnOk result (HasSeen (after self.old) (ready self.old) (after self.new)
            (ready self.new) (file_shown path.now index file.now ∷ [])) }
        ensures kept { kept self.new ≡ kept self.old }
        ensures borrows { borrows self.new ≡ borrows self.old };

    fn visit_message(
        &mut self,
        path: &[i32],
        full_name: &str,
        file: u32,
        parent: Option<u32>,
        index: u32,
        message: &DescriptorProto,
    ) -> Result<(), AllocError>
        requires { ready self.old
            (shown_as path.now full_name.now file parent index (of_message message.now) ∷ []) }
        ensures ok { OnOk result
            (HasSeen (after self.old) (ready self.old) (after self.new) (ready self.new)
            (shown_as path.now full_name.now file parent index (of_message message.now) ∷ [])) }
        ensures kept { kept self.new ≡ kept self.old }
        ensures borrows { borrows self.new ≡ borrows self.old };

    fn visit_field(
        &mut self,
        path: &[i32],
        full_name: &str,
        file: u32,
        parent: u32,
        index: u32,
        field: &FieldDescriptorProto,
    ) -> Result<(), AllocError>
        requires { ready self.old
            (shown_as path.now full_name.now file (Some parent) index (of_field field.now) ∷ []) }
        ensures ok { OnOk result
            (HasSeen (after self.old) (ready self.old) (after self.new) (ready self.new)
            (shown_as path.now full_name.now file (Some parent) index (of_field field.now) ∷ [])) }
        ensures kept { kept self.new ≡ kept self.old }
        ensures borrows { borrows self.new ≡ borrows self.old };

    fn visit_oneof(
        &mut self,
        path: &[i32],
        full_name: &str,
        file: u32,
        parent: u32,
        index: u32,
        oneof: &OneofDescriptorProto,
    ) -> Result<(), AllocError>
        requires { ready self.old
            (shown_as path.now full_name.now file (Some parent) index (of_oneof oneof.now) ∷ []) }
        ensures ok { OnOk result
            (HasSeen (after self.old) (ready self.old) (after self.new) (ready self.new)
            (shown_as path.now full_name.now file (Some parent) index (of_oneof oneof.now) ∷ [])) }
        ensures kept { kept self.new ≡ kept self.old }
        ensures borrows { borrows self.new ≡ borrows self.old };

    fn visit_service(
        &mut self,
        path: &[i32],
        full_name: &str,
        file: u32,
        index: u32,
        service: &ServiceDescriptorProto,
    ) -> Result<(), AllocError>
        requires { ready self.old
            (shown_as path.now full_name.now file None index (of_service service.now) ∷ []) }
        ensures ok { OnOk result
            (HasSeen (after self.old) (ready self.old) (after self.new) (ready self.new)
            (shown_as path.now full_name.now file None index (of_service service.now) ∷ [])) }
        ensures kept { kept self.new ≡ kept self.old }
        ensures borrows { borrows self.new ≡ borrows self.old };

    fn visit_method(
        &mut self,
        path: &[i32],
        full_name: &str,
        file: u32,
        parent: u32,
        index: u32,
        method: &MethodDescriptorProto,
    ) -> Result<(), AllocError>
        requires { ready self.old
            (shown_as path.now full_name.now file (Some parent) index (of_method method.now) ∷ []) }
        ensures ok { OnOk result
            (HasSeen (after self.old) (ready self.old) (after self.new) (ready self.new)
            (shown_as path.now full_name.now file (Some parent) index
            (of_method method.now) ∷ [])) }
        ensures kept { kept self.new ≡ kept self.old }
        ensures borrows { borrows self.new ≡ borrows self.old };

    fn visit_enum(
        &mut self,
        path: &[i32],
        full_name: &str,
        file: u32,
        parent: Option<u32>,
        index: u32,
        enumeration: &EnumDescriptorProto,
    ) -> Result<(), AllocError>
        requires { ready self.old
            (shown_as path.now full_name.now file parent index (of_enum enumeration.now) ∷ []) }
        ensures ok { OnOk result
            (HasSeen (after self.old) (ready self.old) (after self.new) (ready self.new)
            (shown_as path.now full_name.now file parent index (of_enum enumeration.now) ∷ [])) }
        ensures kept { kept self.new ≡ kept self.old }
        ensures borrows { borrows self.new ≡ borrows self.old };

    fn visit_enum_value(
        &mut self,
        path: &[i32],
        full_name: &str,
        file: u32,
        parent: u32,
        index: u32,
        value: &EnumValueDescriptorProto,
    ) -> Result<(), AllocError>
        requires { ready self.old
            (shown_as path.now full_name.now file (Some parent) index (of_value value.now) ∷ []) }
        ensures ok { OnOk result
            (HasSeen (after self.old) (ready self.old) (after self.new) (ready self.new)
            (shown_as path.now full_name.now file (Some parent) index (of_value value.now) ∷ [])) }
        ensures kept { kept self.new ≡ kept self.old }
        ensures borrows { borrows self.new ≡ borrows self.old };

    fn visit_extension(
        &mut self,
        path: &[i32],
        full_name: &str,
        file: u32,
        parent: Option<u32>,
        index: u32,
        extension: &FieldDescriptorProto,
    ) -> Result<(), AllocError>
        requires { ready self.old
            (shown_as path.now full_name.now file parent index (of_extension extension.now) ∷ []) }
        ensures ok { OnOk result
            (HasSeen (after self.old) (ready self.old) (after self.new) (ready self.new)
            (shown_as path.now full_name.now file parent index (of_extension extension.now) ∷ [])) }
        ensures kept { kept self.new ≡ kept self.old }
        ensures borrows { borrows self.new ≡ borrows self.old };

    /// Whether fields, oneofs, methods and values change nothing of what it shows, so that `walk`
    /// need not show it any.
    fn skips_parts(&self) -> bool
        ensures { IsTrue result → PartsChangeNothing after ready }
    {
        false
    }

    /// It may be shown a front of a list that it may be shown.
    ghost front_ready: { (v : Self) (ds es : List Shown) → ready v (ds ++ es) → ready v ds };
}
