ghost use Rattle.std.specs.Prelude.{◌≡◌, ◌∷◌, [], ℕ, Bool, false, IfOk, IfSome, IsOk, None, Some};
ghost use Rattle.std.specs.BTreeSet.{contains_by};
ghost use Rattle.std.specs.FinMap as finite;
ghost use Rattle.std.specs.List.{find};
ghost use Rattle.std.specs.Option.{option_map_or};
ghost use Rattle.std.specs.Ordering.{nat_cmp};
ghost use Rattle.proto_types.specs.Names.{join};
ghost use Rattle.pool_types.specs.Definition.{is_parent};
ghost use Rattle.name_tables.specs.Parts.{parts};
ghost use Rattle.name_resolution.specs.declared.filter.ResolveNameFilter.{ResolveNameFilter};
ghost use Rattle.name_resolution.specs.Parents.{outer};
ghost use Rattle.name_resolution.specs.Resolution.{dotted, holds_first, look, not_found};
ghost use Rattle.name_resolution.specs.Resolution.{resolution, resolution_in, simple};

use crate::filter::ResolveNameFilter;
use crate::resolution::{ResolveNameResult, first_part};
use crate::wants::Wanted;
use name_tables::{PartNames, Scope};
use plain_data::Text;
use pool_types::Definition;
use proto_types::join;
use std::alloc::{AllocError, Global};
use std::collections::BTreeSet;

/// What `resolve_name` answers, over a tree of names: it goes down the scope once, and looks for
/// the name from there outwards. Memory is taken for the texts of the answer alone.
///
/// # Errors
/// `AllocError` where memory was refused, which it is not where nothing has the name.
pub fn resolve_in_parts<'a>(
    alloc: Global,
    visible: &BTreeSet<u32>,
    names: &'a PartNames,
    scope: &str,
    name: &str,
    filter: ResolveNameFilter,
) -> Result<ResolveNameResult<'a>, AllocError>
    ensures answer { IfOk result (λ r. resolution_in r
        ≡ resolution names.now (λ n. contains_by (nat_cmp n) visible.now) filter
        scope.now name.now) }
    ensures nothing { resolution names.now (λ n. contains_by (nat_cmp n) visible.now) filter
        scope.now name.now ≡ not_found → IsOk result }
{
    let wanted = Wanted { visible, filter };
    match name.strip_prefix('.') {
        Some(full_name) => look_in(alloc, wanted, &names.scope(""), full_name),
        None if scope.is_empty() => look_in(alloc, wanted, &names.scope(""), name),
        None if name.contains('.') => look_for_parts(alloc, wanted, names.scope(scope), name),
        None => look_outwards(alloc, wanted, names.scope(scope), name),
    }
}

/// What a name means in one scope alone.
fn look_in<'a>(
    alloc: Global,
    wanted: Wanted,
    scope: &Scope<'a, '_>,
    name: &str,
) -> Result<ResolveNameResult<'a>, AllocError>
    ensures answer { IfOk result (λ r. resolution_in r
        ≡ look scope.now.0 (λ n. contains_by (nat_cmp n) wanted.entry.visible.now)
        wanted.entry.filter (join scope.now.1 name.now)) }
    ensures nothing { finite.get scope.now.0 (join scope.now.1 name.now) ≡ None → IsOk result }
{
    match scope.find(name) {
        Some(def) => {
            let full_name = join(alloc, scope.text(), name)?;
            Ok(wanted.judge(Text::from_string(full_name), def))
        }
        None => Ok(ResolveNameResult::NotFound),
    }
}

/// What a name without a dot means, in a scope and in those around it.
fn look_outwards<'a>(
    alloc: Global,
    wanted: Wanted,
    scope: Scope<'a, '_>,
    name: &str,
) -> Result<ResolveNameResult<'a>, AllocError>
    requires { parts name.now ≡ name.now ∷ [] }
    ensures answer { IfOk result (λ r. resolution_in r
        ≡ simple scope.entry.0 (λ n. contains_by (nat_cmp n) wanted.entry.visible.now)
        wanted.entry.filter (outer scope.entry.1) name.now) }
    ensures nothing { simple scope.entry.0 (λ n. contains_by (nat_cmp n) wanted.entry.visible.now)
        wanted.entry.filter (outer scope.entry.1) name.now ≡ not_found → IsOk result }
{
    match innermost(wanted, scope, name) {
        Some((scope, def)) => {
            let full_name = join(alloc, scope.text(), name)?;
            Ok(wanted.judge(Text::from_string(full_name), def))
        }
        None => Ok(ResolveNameResult::NotFound),
    }
}

/// The innermost scope, from one outwards, in which a name without a dot has a definition that is
/// wanted, else the innermost in which it has any; and that definition.
fn innermost<'a, 't>(
    wanted: Wanted,
    scope: Scope<'a, 't>,
    name: &str,
) -> Option<(Scope<'a, 't>, &'a Definition)>
    requires { parts name.now ≡ name.now ∷ [] }
    ensures found { IfSome result (λ p.
        finite.get scope.entry.0 (join p.0.1 name.now) ≡ Some p.1.now) }
    ensures settles { IfSome result (λ p.
        simple scope.entry.0 (λ n. contains_by (nat_cmp n) wanted.entry.visible.now)
        wanted.entry.filter (outer scope.entry.1) name.now
        ≡ look scope.entry.0 (λ n. contains_by (nat_cmp n) wanted.entry.visible.now)
        wanted.entry.filter (join p.0.1 name.now)) }
    ensures none { result ≡ None
        → simple scope.entry.0 (λ n. contains_by (nat_cmp n) wanted.entry.visible.now)
        wanted.entry.filter (outer scope.entry.1) name.now ≡ not_found }
{
    let mut best = None;
    let mut next = Some(scope);
    while let Some(scope) = next {
        next = scope.around();
        if let Some(def) = scope.find_part(name) {
            if wanted.is_wanted(def) {
                return Some((scope, def));
            }
            best = best.or(Some((scope, def)));
        }
    }
    best
}

/// What a name with a dot means, in a scope and in those around it.
fn look_for_parts<'a>(
    alloc: Global,
    wanted: Wanted,
    scope: Scope<'a, '_>,
    name: &str,
) -> Result<ResolveNameResult<'a>, AllocError>
    ensures answer { IfOk result (λ r. resolution_in r
        ≡ dotted scope.entry.0 (λ n. contains_by (nat_cmp n) wanted.entry.visible.now)
        wanted.entry.filter (outer scope.entry.1) name.now) }
    ensures nothing { dotted scope.entry.0 (λ n. contains_by (nat_cmp n) wanted.entry.visible.now)
        wanted.entry.filter (outer scope.entry.1) name.now ≡ not_found → IsOk result }
{
    let Some(scope) = holder(scope, name) else {
        return Ok(ResolveNameResult::NotFound);
    };
    let full_name = join(alloc, scope.text(), name)?;
    match scope.find(name) {
        Some(def) => Ok(wanted.judge(Text::from_string(full_name), def)),
        None => Ok(ResolveNameResult::Shadowed {
            name: Text::from_str(alloc, name)?,
            shadowed_name: Text::from_string(full_name),
        }),
    }
}

/// The innermost scope, from one outwards, that holds the first part of a name, as something that
/// other declarations may stand in.
fn holder<'a, 't>(scope: Scope<'a, 't>, name: &str) -> Option<Scope<'a, 't>>
    ensures names { IfSome result (λ s. s.0 ≡ scope.entry.0) }
    ensures found { (is_seen : ℕ → Bool) (filter : ResolveNameFilter) → IfSome result (λ s.
        find (holds_first scope.entry.0 is_seen filter name.now) (outer scope.entry.1) ≡ Some s.1) }
    ensures none { (is_seen : ℕ → Bool) (filter : ResolveNameFilter) → result ≡ None
        → find (holds_first scope.entry.0 is_seen filter name.now) (outer scope.entry.1) ≡ None }
{
    let first = first_part(name);
    let mut next = Some(scope);
    while let Some(scope) = next {
        next = scope.around();
        if has_parent(&scope, first) {
            return Some(scope);
        }
    }
    None
}

/// Whether a name without a dot means something in a scope that other declarations may stand in.
fn has_parent(scope: &Scope, name: &str) -> bool
    requires { parts name.now ≡ name.now ∷ [] }
    ensures { result ≡ option_map_or (λ def. is_parent def.kind)
        (finite.get scope.now.0 (join scope.now.1 name.now)) false }
{
    scope
        .find_part(name)
        .is_some_and(|def| def.kind.is_parent())
}
