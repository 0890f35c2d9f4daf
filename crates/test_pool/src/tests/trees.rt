//! Odd names in both tables of names, and references that are resolved over both.

use name_resolution::{ResolveNameFilter, ResolveNameResult, resolve_in_parts, resolve_name};
use name_tables::{HashedNames, NameTable, PartNames};
use plain_data::Path;
use pool_types::{Definition, DefinitionKind};
use std::alloc::{AllocError, Global};
use std::collections::BTreeSet;
use std::process::Abort;
use std::test::Fail;

/// Names whose parts may be empty, entered by the files 0, 1, and so on.
const ODD: [&str; 5] = ["a", "a.b", "a..b", "a.", ""];

/// Names that are not among them.
const ABSENT: [&str; 4] = [".", "a..", "b", "a.b."];

fn message_of(alloc: Global, file: u32) -> Result<Definition, AllocError> {
    Ok(Definition {
        file,
        path: Path::from_slice(alloc, &[])?,
        kind: DefinitionKind::Message(0),
    })
}

/// Enters a name, unless the table has it.
fn enter<N: NameTable>(
    table: &mut N,
    name: &str,
    definition: Definition,
) -> Result<(), AllocError> {
    table.insert(name, definition)?;
    Ok(())
}

/// Enters names by the files 0, 1, and so on, unless the table has them.
fn enter_all<N: NameTable>(alloc: Global, table: &mut N, names: &[&str]) -> Result<(), AllocError> {
    let mut file = 0;
    for name in names {
        enter(table, name, message_of(alloc, file)?)?;
        file = 1u32.saturating_add(file);
    }
    Ok(())
}

/// The file of what a name means.
fn file_of<N: NameTable>(table: &N, name: &str) -> Option<u32> {
    Some(table.get(name)?.file)
}

fn check_odd_names<N: NameTable>(
    rt: &impl Abort,
    alloc: Global,
    table: &mut N,
    two: &mut N,
) -> Result<(), AllocError> {
    enter_all(alloc, table, &ODD)?;
    for (file, name) in ODD.iter().enumerate() {
        assert!(rt;
            file_of(table, name).is_some_and(|found| found as usize == file),
            "{name}"
        );
    }
    for name in ABSENT {
        assert!(rt; table.get(name).is_none(), "{name}");
    }
    table.remove_from(2);
    for (file, name) in ODD.iter().enumerate() {
        assert!(rt; file_of(table, name).is_some() == (file < 2), "{name}");
    }
    enter_all(alloc, two, &["a", "a.b"])?;
    assert!(rt; table.same(two));
    Ok(())
}

#[test]
fn odd_names_are_told_apart(rt: HostRuntime) -> Result<(), Fail> {
    let alloc = rt.alloc();
    check_odd_names(
        &rt,
        alloc,
        &mut HashedNames::new(alloc),
        &mut HashedNames::new(alloc),
    )?;
    check_odd_names(
        &rt,
        alloc,
        &mut PartNames::new(alloc),
        &mut PartNames::new(alloc),
    )?;
    Ok(())
}

/// A name of many parts.
fn deep_name(alloc: Global, parts: u32) -> Result<String, AllocError> {
    let mut name = String::from_str(alloc, "a")?;
    for _ in 1..parts {
        name.push_str(".a")?;
    }
    Ok(name)
}

/// Whether two names are found in a table of both, and what they begin with is not.
fn are_found(alloc: Global, name: &str, longer: &str) -> Result<bool, AllocError> {
    let mut table = PartNames::new(alloc);
    enter_all(alloc, &mut table, &[name, longer])?;
    let (first, second) = (file_of(&table, name), file_of(&table, longer));
    Ok((first, second, file_of(&table, "a")) == (Some(0), Some(1), None))
}

#[test]
fn names_may_have_many_parts(rt: HostRuntime) -> Result<(), Fail> {
    for parts in [64, 10_000] {
        let name = deep_name(rt.alloc(), parts)?;
        let longer = deep_name(rt.alloc(), 1u32.saturating_add(parts))?;
        assert!(rt; are_found(rt.alloc(), name.as_str(), longer.as_str())?);
    }
    Ok(())
}

/// Names of messages in files that are seen, a scope, a reference that is written there, and what
/// it means.
const MEANINGS: &[(&[&str], &str, &str, &str)] = &[
    (&[".x"], ".a", "x", "not found"),
    (&[".x"], ".a", "..x", "found .x"),
    (&[".x", "x"], ".a", "x", "found x"),
    (
        &["foo", "foo.Bar", "p", "p.foo"],
        "p.M.f",
        "foo.Bar",
        "shadowed p.foo.Bar",
    ),
];

/// The files 0 to 3.
fn visible(alloc: Global) -> Result<BTreeSet<u32>, AllocError> {
    let mut visible = BTreeSet::new(alloc);
    for file in 0..4 {
        visible.insert(file)?;
    }
    Ok(visible)
}

/// What a reference means.
fn meaning(alloc: Global, resolved: &ResolveNameResult) -> Result<String, AllocError> {
    match resolved {
        ResolveNameResult::Found { name, .. } => {
            let name = name.as_str();
            format!(in alloc; "found {name}")
        }
        ResolveNameResult::Shadowed { shadowed_name, .. } => {
            let name = shadowed_name.as_str();
            format!(in alloc; "shadowed {name}")
        }
        ResolveNameResult::NotFound => String::from_str(alloc, "not found"),
        _ => String::from_str(alloc, "something else"),
    }
}

/// What a reference in a scope means over a table of names.
fn meaning_over<N: NameTable>(
    alloc: Global,
    names: &N,
    (scope, name): (&str, &str),
) -> Result<String, AllocError> {
    let visible = visible(alloc)?;
    let filter = ResolveNameFilter::FieldType;
    let resolved = resolve_name(alloc, &visible, names, scope, name, filter)?;
    meaning(alloc, &resolved)
}

/// The same, found part by part.
fn meaning_in_parts(
    alloc: Global,
    names: &PartNames,
    (scope, name): (&str, &str),
) -> Result<String, AllocError> {
    let visible = visible(alloc)?;
    let filter = ResolveNameFilter::FieldType;
    let resolved = resolve_in_parts(alloc, &visible, names, scope, name, filter)?;
    meaning(alloc, &resolved)
}

fn over_hashed(alloc: Global, names: &[&str], written: (&str, &str)) -> Result<String, AllocError> {
    let mut table = HashedNames::new(alloc);
    enter_all(alloc, &mut table, names)?;
    meaning_over(alloc, &table, written)
}

fn over_tree(alloc: Global, names: &[&str], written: (&str, &str)) -> Result<String, AllocError> {
    let mut table = PartNames::new(alloc);
    enter_all(alloc, &mut table, names)?;
    meaning_over(alloc, &table, written)
}

fn in_parts(alloc: Global, names: &[&str], written: (&str, &str)) -> Result<String, AllocError> {
    let mut table = PartNames::new(alloc);
    enter_all(alloc, &mut table, names)?;
    meaning_in_parts(alloc, &table, written)
}

/// Asserts what a reference means, where memory was there.
fn check_meaning(
    rt: &impl Abort,
    told: Result<String, AllocError>,
    wanted: &str,
) -> Result<(), AllocError> {
    let told = told?;
    assert!(rt; told.as_str() == wanted, "{told} for {wanted}");
    Ok(())
}

#[test]
fn references_mean_the_same_over_both_tables(rt: HostRuntime) -> Result<(), Fail> {
    for (names, scope, name, wanted) in MEANINGS {
        let written = (*scope, *name);
        check_meaning(&rt, over_hashed(rt.alloc(), names, written), wanted)?;
        check_meaning(&rt, over_tree(rt.alloc(), names, written), wanted)?;
        check_meaning(&rt, in_parts(rt.alloc(), names, written), wanted)?;
    }
    Ok(())
}
