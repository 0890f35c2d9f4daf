//! The example of the face `pool_parts`, as its first page has it.

use pool_parts::{
    Definition, DefinitionKind, NameTable, Path, PoolNames, ResolveNameFilter, resolve_name,
};
use std::collections::BTreeSet;
use std::test::Fail;

#[test]
fn the_example_is_run(rt: HostRuntime) -> Result<(), Fail> {
    let alloc = rt.alloc();
    let mut seen = BTreeSet::new(alloc);
    seen.insert(0)?;
    let path = Path::from_slice(alloc, &[4, 0, 1])?;
    let definition = Definition {
        file: 0,
        path,
        kind: DefinitionKind::Message(0),
    };
    let mut names = PoolNames::new(alloc);
    names.insert("p.M", definition)?;
    let wanted = ResolveNameFilter::FieldType;
    let meant = resolve_name(alloc, &seen, &names, "p.N.f", "M", wanted)?;
    assert!(rt; meant.is_found());
    Ok(())
}
