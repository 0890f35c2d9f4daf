//! A law on the scopes in which declarations are named. A call does nothing: its contract is the
//! law, and is proved of all arguments.
ghost use Rattle.name_pass.specs.Laws.{DeclaredFollow};

use proto_types::FileDescriptorProto;
use record_walk::Counts;

/// What files declare follows any scopes that were open before: each declaration is named in a
/// scope that is open when it comes. So a visitor of names may be shown it. The files are numbered
/// on from the counts of a pool.
pub fn declared_follow(base: Counts, files: &[FileDescriptorProto])
    ensures { DeclaredFollow base files.now }
{}
