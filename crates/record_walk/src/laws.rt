//! Laws on the list of all declarations. A call does nothing: its contract is the law, and is
//! proved of all arguments.
ghost use Rattle.record_walk.specs.Leads.{PathsLeadIn};
ghost use Rattle.record_walk.specs.Indexes.{IndexesCountOn};
ghost use Rattle.record_walk.specs.Changed.{Changes, KeepNames, DeclareChanged};
ghost use Rattle.record_walk.specs.InTurn.{DeclareInTurn};

use crate::counts::Counts;
use proto_types::FileDescriptorProto;

/// The path of each declaration of files leads to its record, in the file with its index. The files
/// are numbered on from the counts of a pool.
pub fn declared_paths(base: Counts, files: &[FileDescriptorProto])
    ensures { PathsLeadIn base files.now }
{}

/// The index of each file, message, enum, service and extension is how many of its kind the counts
/// of a pool have and stand before it in the list of all declarations. The index of any other
/// declaration is the position, from 0, with which its path ends.
pub fn declared_indexes(base: Counts, files: &[FileDescriptorProto])
    ensures { IndexesCountOn base files.now }
{}

/// Two lists of files, one behind the other, declare what the first declares, and then what the
/// second does, numbered on from the counts behind the first.
pub fn declared_in_turn(base: Counts, files: &[FileDescriptorProto], more: &[FileDescriptorProto])
    ensures { DeclareInTurn base files.now more.now }
{}

/// Where fields, extensions and methods are changed so that they keep their names, files declare
/// what they declared, each with its record changed.
pub fn declared_changed(base: Counts, files: &[FileDescriptorProto])
    ensures { (c : Changes) → KeepNames c → DeclareChanged c base files.now }
{}
