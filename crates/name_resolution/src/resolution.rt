ghost use Rattle.std.specs.Prelude.{◌≡◌, ◌∷◌, [], IfOk, false, if◌then◌else◌, map, string_bytes};
ghost use Rattle.std.specs.BTreeSet.{contains_by};
ghost use Rattle.std.specs.FinMap as finite;
ghost use Rattle.std.specs.Option.{option_map_or};
ghost use Rattle.std.specs.Ordering.{nat_cmp};
ghost use Rattle.proto_types.specs.Names.{first_part};
ghost use Rattle.pool_faults.specs.declared.fault.DescriptorErrorKind.TheVariants.{InvalidType};
ghost use Rattle.pool_faults.specs.declared.fault.DescriptorErrorKind.TheVariants.{NameNotFound};
ghost use Rattle.pool_faults.specs.declared.fault.DescriptorErrorKind.TheVariants.{NameShadowed};
ghost use Rattle.pool_types.specs.Definition.{is_parent};
ghost use Rattle.name_tables.specs.Parts.{parts};
ghost use Rattle.name_resolution.specs.Filter.{filter_text};
ghost use Rattle.name_resolution.specs.Parents.{outer};
ghost use Rattle.name_resolution.specs.Resolution.{resolution, resolution_in, look, simple, dotted};
ghost use Rattle.name_resolution.specs.Resolution.{or_shadowed, is_found, is_not_found};
ghost use Rattle.name_resolution.specs.References.{reference_fault};

use crate::filter::ResolveNameFilter;
use crate::parents::CandidateParents;
use crate::wants::Wanted;
use name_tables::NameTable;
use plain_data::Text;
use pool_faults::{DescriptorErrorKind, Label, Labels};
use pool_types::{Definition, FileDescriptorInner};
use proto_types::write_joined;
use std::alloc::{AllocError, Global};
use std::collections::BTreeSet;

/// What a reference means.
#[derive(Drop)]
pub enum ResolveNameResult<'a> {
    /// A full name, and the definition that is wanted.
    Found {
        name: Text,
        def: &'a Definition,
    },
    /// A full name, and its definition, which isn't of a kind that is wanted.
    InvalidType {
        name: Text,
        def: &'a Definition,
        filter: ResolveNameFilter,
    },
    /// A full name, and the index of its file, which isn't seen.
    NotImported {
        name: Text,
        file: u32,
    },
    /// The name as it is written, and the full name that it resolves to but that isn't defined.
    Shadowed {
        name: Text,
        shadowed_name: Text,
    },
    /// Nothing has the name.
    NotFound,
}

/// What a reference means that is written in a scope of a file, which sees the files with the
/// indexes in `visible`, from 0 in the order of linking.
///
/// A name with a leading dot is a full name, and so is any name in the empty scope. Any other is
/// looked for in the scope and in those around it, from the innermost out:
///
/// - A name without a dot means the first wanted and visible definition that is found, else the
///   first definition.
/// - A name with a dot is settled where its first part is first found as a package, a message, a
///   service or an enum, visible or not. Where the whole name isn't defined there, it is shadowed.
///
/// # Errors
/// `AllocError` where memory was refused.
pub fn resolve_name<'a, N: NameTable>(
    alloc: Global,
    visible: &BTreeSet<u32>,
    names: &'a N,
    scope: &str,
    name: &str,
    filter: ResolveNameFilter,
) -> Result<ResolveNameResult<'a>, AllocError>
    ensures { IfOk result (λ r. resolution_in r
        ≡ resolution (N.names names.now) (λ n. contains_by (nat_cmp n) visible.now) filter
        scope.now name.now) }
{
    let wanted = Wanted { visible, filter };
    let reference = ScopedName { scope, name };
    match name.strip_prefix('.') {
        Some(full_name) => look_up(alloc, wanted, names, full_name),
        None if scope.is_empty() => look_up(alloc, wanted, names, name),
        None if name.contains('.') => resolve_dotted(alloc, wanted, names, reference),
        None => resolve_simple(alloc, wanted, names, reference),
    }
}

/// A name, and the scope in which it is written.
#[derive(Clone, Copy)]
struct ScopedName<'s> {
    scope: &'s str,
    name: &'s str,
}

/// What a name without a dot means.
fn resolve_simple<'a, N: NameTable>(
    alloc: Global,
    wanted: Wanted,
    names: &'a N,
    reference: ScopedName,
) -> Result<ResolveNameResult<'a>, AllocError>
    ensures { IfOk result (λ r. resolution_in r
        ≡ simple (N.names names.now) (λ n. contains_by (nat_cmp n) wanted.entry.visible.now)
        wanted.entry.filter (outer reference.entry.scope.now) reference.entry.name.now) }
{
    let mut best = ResolveNameResult::NotFound;
    let longest = reference.scope.len() + 1 + reference.name.len();
    let mut full_name = String::with_capacity(alloc, longest)?;
    for parent in CandidateParents::new(reference.scope) {
        write_joined(&mut full_name, parent, reference.name)?;
        let answer = look_up(alloc, wanted, names, full_name.as_str())?;
        if answer.is_found() {
            return Ok(answer);
        }
        best = best.or(answer);
    }
    Ok(best)
}

/// What a name with a dot means.
fn resolve_dotted<'a, N: NameTable>(
    alloc: Global,
    wanted: Wanted,
    names: &'a N,
    reference: ScopedName,
) -> Result<ResolveNameResult<'a>, AllocError>
    ensures { IfOk result (λ r. resolution_in r
        ≡ dotted (N.names names.now) (λ n. contains_by (nat_cmp n) wanted.entry.visible.now)
        wanted.entry.filter (outer reference.entry.scope.now) reference.entry.name.now) }
{
    let first = first_part(reference.name);
    let longest = reference.scope.len() + 1 + reference.name.len();
    let mut full_name = String::with_capacity(alloc, longest)?;
    for parent in CandidateParents::new(reference.scope) {
        write_joined(&mut full_name, parent, first)?;
        if is_parent(names, full_name.as_str()) {
            write_joined(&mut full_name, parent, reference.name)?;
            let answer = look_up(alloc, wanted, names, full_name.as_str())?;
            return answer.or_shadowed(alloc, reference.name, full_name);
        }
    }
    Ok(ResolveNameResult::NotFound)
}

/// The text before the first dot of a name, or the whole name.
pub(crate) fn first_part(name: &str) -> &str
    ensures text { result.now ≡ first_part name.now }
    ensures one { parts result.now ≡ result.now ∷ [] }
{
    match name.split_once('.') {
        Some((first, _)) => first,
        None => name,
    }
}

/// Whether a full name means something that other declarations may stand in.
fn is_parent<N: NameTable>(names: &N, full_name: &str) -> bool
    ensures { result ≡ option_map_or (λ def. is_parent def.kind)
        (finite.get (N.names names.now) full_name.now) false }
{
    names.get(full_name).is_some_and(|def| def.kind.is_parent())
}

/// What a full name means.
fn look_up<'a, N: NameTable>(
    alloc: Global,
    wanted: Wanted,
    names: &'a N,
    full_name: &str,
) -> Result<ResolveNameResult<'a>, AllocError>
    ensures { IfOk result (λ r. resolution_in r
        ≡ look (N.names names.now) (λ n. contains_by (nat_cmp n) wanted.entry.visible.now)
        wanted.entry.filter full_name.now) }
{
    let Some(def) = names.get(full_name) else {
        return Ok(ResolveNameResult::NotFound);
    };
    let name = Text::from_str(alloc, full_name)?;
    Ok(wanted.judge(name, def))
}

impl<'a> ResolveNameResult<'a> {
    /// Whether the reference means a definition that is wanted.
    pub fn is_found(&self) -> bool
        ensures { result ≡ is_found (resolution_in self.now) }
    {
        matches!(self, ResolveNameResult::Found { .. })
    }

    /// The fault of a reference as it is written, at a path of the file with an index; none where
    /// it is found.
    ///
    /// # Errors
    /// `AllocError` where memory was refused.
    pub fn fault(
        &self,
        alloc: Global,
        orig_name: &str,
        files: &[FileDescriptorInner],
        found_file: u32,
        path: &[i32],
    ) -> Result<Option<DescriptorErrorKind>, AllocError>
        ensures { IfOk result (λ fault. fault
            ≡ reference_fault (map (λ f. f.raw) files.now) orig_name.now found_file path.now
            (resolution_in self.now)) }
    {
        let mut labels = Labels::new(alloc, files);
        self.labelled_fault(alloc, orig_name, &mut labels, found_file, path)
    }

    /// The fault of a reference, with labels that are made by an index of the locations of files.
    /// The files of the index stay.
    ///
    /// # Errors
    /// `AllocError` where memory was refused.
    pub fn labelled_fault(
        &self,
        alloc: Global,
        orig_name: &str,
        labels: &mut Labels,
        found_file: u32,
        path: &[i32],
    ) -> Result<Option<DescriptorErrorKind>, AllocError>
        ensures fault { IfOk result (λ fault. fault
            ≡ reference_fault (map (λ f. f.raw) labels.old) orig_name.now found_file path.now
            (resolution_in self.now)) }
        ensures labels { labels.new ≡ labels.old }
    {
        let fault = match self {
            ResolveNameResult::Found { .. } => return Ok(None),
            ResolveNameResult::InvalidType { name, def, filter } => {
                let found = labels.label(found_file, path)?;
                let defined = labels.label(def.file, def.path.as_slice())?;
                invalid_type(alloc, name.as_str(), *filter, found, defined)?
            }
            ResolveNameResult::NotImported { name, .. } => {
                let found = labels.label(found_file, path)?;
                name_not_found(alloc, name.as_str(), found)?
            }
            ResolveNameResult::Shadowed { shadowed_name, .. } => {
                let found = labels.label(found_file, path)?;
                name_shadowed(alloc, orig_name, shadowed_name.as_str(), found)?
            }
            ResolveNameResult::NotFound => {
                let found = labels.label(found_file, path)?;
                name_not_found(alloc, orig_name, found)?
            }
        };
        Ok(Some(fault))
    }

    /// This answer, or the other one if nothing has the name by this.
    fn or(self, other: ResolveNameResult<'a>) -> ResolveNameResult<'a>
        ensures { resolution_in result ≡ (if is_not_found (resolution_in self.entry)
            then resolution_in other.entry else resolution_in self.entry) }
    {
        match self {
            ResolveNameResult::NotFound => other,
            answer => answer,
        }
    }

    /// This answer; but where nothing has the full name, that it shadows the name as it is written.
    fn or_shadowed(
        self,
        alloc: Global,
        name: &str,
        full_name: String,
    ) -> Result<ResolveNameResult<'a>, AllocError>
        ensures { IfOk result (λ r. resolution_in r
            ≡ or_shadowed name.now (string_bytes full_name) (resolution_in self.entry)) }
    {
        match self {
            ResolveNameResult::NotFound => Ok(ResolveNameResult::Shadowed {
                name: Text::from_str(alloc, name)?,
                shadowed_name: Text::from_string(full_name),
            }),
            other => Ok(other),
        }
    }
}

/// The fault of a full name whose definition is not of a kind that is wanted, with the labels of
/// the reference and of the definition.
fn invalid_type(
    alloc: Global,
    name: &str,
    filter: ResolveNameFilter,
    found: Label,
    defined: Label,
) -> Result<DescriptorErrorKind, AllocError>
    ensures { IfOk result (λ fault. fault
        ≡ InvalidType name.now (filter_text filter) found defined) }
{
    Ok(DescriptorErrorKind::InvalidType {
        name: Text::from_str(alloc, name)?,
        expected: Text::from_string(format!(in alloc; "{filter}")?),
        found,
        defined,
    })
}

/// The fault of a name, as it is shown, that a file does not see or that nothing has, with the
/// label of the reference.
fn name_not_found(
    alloc: Global,
    name: &str,
    found: Label,
) -> Result<DescriptorErrorKind, AllocError>
    ensures { IfOk result (λ fault. fault ≡ NameNotFound name.now found) }
{
    let name = Text::from_str(alloc, name)?;
    Ok(DescriptorErrorKind::NameNotFound { name, found })
}

/// The fault of a name as it is written that resolves to a full name which isn't defined, with the
/// label of the reference.
fn name_shadowed(
    alloc: Global,
    orig_name: &str,
    shadowed_name: &str,
    found: Label,
) -> Result<DescriptorErrorKind, AllocError>
    ensures { IfOk result (λ fault. fault
        ≡ NameShadowed orig_name.now shadowed_name.now found) }
{
    Ok(DescriptorErrorKind::NameShadowed {
        name: Text::from_str(alloc, orig_name)?,
        shadowed_name: Text::from_str(alloc, shadowed_name)?,
        found,
    })
}
