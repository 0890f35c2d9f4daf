//! The changes of two versions, those of each level by themselves.

ghost use Rattle.std.specs.Prelude.{◌≡◌, [], ◌++◌, IfOk};

use plain_data::Items;
use std::alloc::{AllocError, Global};
use verdict_texts::ToldFault;

/// Changes at the levels behind wire.
#[derive(Drop)]
pub(crate) struct BehindWire {
    pub json: Items<ToldFault>,
    pub source: Items<ToldFault>,
}

/// Changes, those of each level by themselves.
#[derive(Drop)]
pub(crate) struct ByLevel {
    pub wire: Items<ToldFault>,
    pub behind: BehindWire,
}

impl ByLevel {
    /// No changes.
    pub(crate) fn new(alloc: Global) -> ByLevel
        ensures { result ≡ record { wire = []; behind = record { json = []; source = [] } } }
    {
        ByLevel {
            wire: Items::new(alloc),
            behind: BehindWire {
                json: Items::new(alloc),
                source: Items::new(alloc),
            },
        }
    }
}

/// Changes with further ones behind them.
pub(crate) fn followed_by(
    told: Items<ToldFault>,
    further: Items<ToldFault>,
) -> Result<Items<ToldFault>, AllocError>
    ensures { IfOk result (λ all. all ≡ told ++ further) }
{
    let mut told = told.into_vec();
    let mut further = further.into_vec();
    told.append(&mut further)?;
    Ok(Items::from_vec(told))
}
