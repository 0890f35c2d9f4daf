//! The scopes around a scope, from the innermost out.

use name_resolution::CandidateParents;
use std::alloc::{AllocError, Global};
use std::fmt::Write;
use std::test::Fail;

/// The scopes in which a name of a scope is looked for, each behind a stroke.
fn parents(alloc: Global, scope: &str) -> Result<String, AllocError> {
    let mut report = String::new(alloc);
    for parent in CandidateParents::new(scope) {
        write!(&mut report, "|{parent}")?;
    }
    Ok(report)
}

#[test]
fn scopes_go_outward(rt: HostRuntime) -> Result<(), Fail> {
    for (scope, wanted) in [("p.M.f", "|p.M.f|p.M|p|"), ("", "||"), (".a", "|.a||")] {
        let report = parents(rt.alloc(), scope)?;
        assert!(rt; report.as_str() == wanted, "{report}");
    }
    Ok(())
}
