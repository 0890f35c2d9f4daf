ghost use Rattle.std.specs.Prelude.{◌≡◌, IfOk, find};
ghost use Rattle.std.specs.Cmp.Lexicographic.{pointwise};
ghost use Rattle.std.specs.Option.{option_and_then};
ghost use Rattle.std.specs.Ordering.{int_eq};
ghost use Rattle.pool_faults.specs.Labels.{span_of};

use crate::label::span_of;
use proto_types::Location;
use std::alloc::{AllocError, Global};
use std::collections::HashMap;
use std::marker::Model;

/// Locations, with the span of the first one of each path in a hash table. Contracts see them as
/// the list of the locations.
#[derive(Drop)]
pub(crate) struct Spans<'f> {
    locations: &'f [Location],
    table: HashMap<&'f [i32], Option<[i32; 4]>>,
}

impl<'f> Model for Spans<'f> {
    ghost use Rattle.std.specs.Prelude.{List};
    ghost use Rattle.std.specs.Coded.{coded_list};
    ghost use Rattle.proto_types.specs.contracts.records.source.Location as location;
    ghost use Rattle.proto_types.specs.declared.records.source.Location.{Location};

    ghost Value = { List Location };

    ghost coded = { coded_list location.the_row.coded };

    ghost use Rattle.pool_faults.specs.Spans.{HasFirstSpans};

    ghost view = { λ s. s.locations.now };

    ghost invariant = { λ s. HasFirstSpans s.table s.locations.now };
}

impl<'f> Spans<'f> {
    /// The locations, which are gone through once.
    ///
    /// # Errors
    /// `AllocError` where memory was refused.
    pub(crate) fn new(alloc: Global, locations: &'f [Location]) -> Result<Spans<'f>, AllocError>
        ensures { IfOk result (λ s. s ≡ locations.now) }
    {
        let mut table = HashMap::new(alloc);
        for location in locations {
            let path = location.path.as_slice();
            if !table.contains_key(path) {
                table.insert(path, span_of(location.span.as_slice()))?;
            }
        }
        Ok(Spans { locations, table })
    }

    /// The span of the first location of a path.
    pub(crate) fn span(&self, path: &[i32]) -> Option<[i32; 4]>
        ensures { result ≡ option_and_then (λ l. span_of l.span)
            (find (λ l. pointwise int_eq l.path path.now) self.now) }
    {
        *self.table.get(path)?
    }
}
