//! Visitors that are shown files in turn, and visitors that refuse.

ghost use Rattle.std.specs.Prelude.{List, [], IfOk};
ghost use Rattle.pool_types.specs.Contents.{no_contents};
ghost use Rattle.record_walk.specs.Shown.{Shown};
ghost use Rattle.record_walk.specs.Telling.{untold};

use super::counting::{EVERY_KIND, NONE};
use super::files_of;
use proto_types::{
    DescriptorProto, EnumDescriptorProto, EnumValueDescriptorProto, FieldDescriptorProto,
    FileDescriptorProto, MethodDescriptorProto, OneofDescriptorProto, ServiceDescriptorProto,
};
use record_walk::{Visitor, visit, visit_each};
use std::alloc::{AllocError, Global};
use std::cell::Cell;
use std::process::Abort;
use std::rc::Rc;
use std::test::Fail;

/// A visitor that takes as many declarations as are left, and refuses the next.
#[derive(Drop)]
struct Limited {
    left: Rc<Cell<u32>>,
}

impl Limited {
    fn take(&mut self) -> Result<(), AllocError> {
        match self.left.get().checked_sub(1) {
            Some(left) => {
                self.left.set(left);
                Ok(())
            }
            None => Err(AllocError),
        }
    }
}

impl Visitor for Limited {
    ghost after = { λ _ _. record { contents = no_contents; faults = untold; listed = [] } };

    ghost ready = { λ _ _. Unit {0} };

    ghost kept = { λ _. no_contents };

    ghost borrows = { λ _. [] };

    ghost front_ready = { λ _ _ _ _. tt };

    fn visit_file(
        &mut self,
        _path: &[i32],
        _index: u32,
        _file: &FileDescriptorProto,
    ) -> Result<(), AllocError> {
        self.take()
    }

    fn visit_message(
        &mut self,
        _path: &[i32],
        _full_name: &str,
        _file: u32,
        _parent: Option<u32>,
        _index: u32,
        _message: &DescriptorProto,
    ) -> Result<(), AllocError> {
        self.take()
    }

    fn visit_field(
        &mut self,
        _path: &[i32],
        _full_name: &str,
        _file: u32,
        _parent: u32,
        _index: u32,
        _field: &FieldDescriptorProto,
    ) -> Result<(), AllocError> {
        self.take()
    }

    fn visit_oneof(
        &mut self,
        _path: &[i32],
        _full_name: &str,
        _file: u32,
        _parent: u32,
        _index: u32,
        _oneof: &OneofDescriptorProto,
    ) -> Result<(), AllocError> {
        self.take()
    }

    fn visit_service(
        &mut self,
        _path: &[i32],
        _full_name: &str,
        _file: u32,
        _index: u32,
        _service: &ServiceDescriptorProto,
    ) -> Result<(), AllocError> {
        self.take()
    }

    fn visit_method(
        &mut self,
        _path: &[i32],
        _full_name: &str,
        _file: u32,
        _parent: u32,
        _index: u32,
        _method: &MethodDescriptorProto,
    ) -> Result<(), AllocError> {
        self.take()
    }

    fn visit_enum(
        &mut self,
        _path: &[i32],
        _full_name: &str,
        _file: u32,
        _parent: Option<u32>,
        _index: u32,
        _enumeration: &EnumDescriptorProto,
    ) -> Result<(), AllocError> {
        self.take()
    }

    fn visit_enum_value(
        &mut self,
        _path: &[i32],
        _full_name: &str,
        _file: u32,
        _parent: u32,
        _index: u32,
        _value: &EnumValueDescriptorProto,
    ) -> Result<(), AllocError> {
        self.take()
    }

    fn visit_extension(
        &mut self,
        _path: &[i32],
        _full_name: &str,
        _file: u32,
        _parent: Option<u32>,
        _index: u32,
        _extension: &FieldDescriptorProto,
    ) -> Result<(), AllocError> {
        self.take()
    }
}

/// A visitor that takes as many declarations as are left.
fn boxed(alloc: Global, left: &Rc<Cell<u32>>) -> Result<Box<dyn Visitor>, AllocError>
    ensures { IfOk result (λ visitor. (list : List Shown) → ready visitor list) }
{
    let left = left.clone()?;
    Ok(Box::new(alloc, Limited { left })?)
}

/// Asserts that a visitor that takes some declarations leaves some, and that it refuses or not.
fn check(
    rt: &impl Abort,
    alloc: Global,
    files: &[FileDescriptorProto],
    left: &Rc<Cell<u32>>,
    is_taken: bool,
) -> Result<(), AllocError> {
    assert!(rt; NONE.with_files(files).is_ok());
    let mut visitor = boxed(alloc, left)?;
    let shown = visit(alloc, NONE, files, &mut *visitor);
    assert!(rt; shown.is_ok() == is_taken);
    Ok(())
}

#[test]
fn a_visitor_that_refuses_ends_the_walk(rt: HostRuntime) -> Result<(), Fail> {
    let files = files_of(rt.alloc(), EVERY_KIND)?;
    let left = Rc::new(rt.alloc(), Cell::new(4))?;
    check(&rt, rt.alloc(), &files, &left, false)?;
    assert!(rt; left.get() == 0);
    left.set(12);
    check(&rt, rt.alloc(), &files, &left, true)?;
    assert!(rt; left.get() == 1);
    Ok(())
}

fn check_no_visitors(rt: &impl Abort, alloc: Global, files: &[FileDescriptorProto]) {
    assert!(rt; NONE.with_files(files).is_ok());
    let mut visitors: Vec<Box<dyn Visitor>> = Vec::new(alloc);
    assert!(rt; visit_each(alloc, NONE, files, &mut visitors).is_ok());
}

/// Shows files to two visitors in turn, which take as many declarations as are left to both.
fn show_two(
    rt: &impl Abort,
    alloc: Global,
    files: &[FileDescriptorProto],
    left: &Rc<Cell<u32>>,
) -> Result<(), AllocError> {
    assert!(rt; NONE.with_files(files).is_ok());
    let mut visitors: Vec<Box<dyn Visitor>> = Vec::new(alloc);
    visitors.push(boxed(alloc, left)?)?;
    visitors.push(boxed(alloc, left)?)?;
    visit_each(alloc, NONE, files, &mut visitors)
}

#[test]
fn visitors_are_shown_files_in_turn(rt: HostRuntime) -> Result<(), Fail> {
    let files = files_of(rt.alloc(), EVERY_KIND)?;
    check_no_visitors(&rt, rt.alloc(), &files);
    let left = Rc::new(rt.alloc(), Cell::new(23))?;
    show_two(&rt, rt.alloc(), &files, &left)?;
    assert!(rt; left.get() == 1);
    left.set(21);
    assert!(rt; show_two(&rt, rt.alloc(), &files, &left).is_err());
    assert!(rt; left.get() == 0);
    Ok(())
}
