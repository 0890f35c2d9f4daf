//! Groups, which are skipped.

ghost use Rattle.std.specs.Prelude.{◌≡◌, ◌≤◌, ℕ, suc, List, ◌∷◌, length, IfOk, MatchResult};
ghost use Rattle.wire_format.specs.declared.fault.WireFaultKind.TheVariants.{TooDeep};
ghost use Rattle.wire_format.specs.Fields.{tokens, fields_within, Skips};

use crate::fault::{WireFault, WireFaultKind};
use crate::tokens::{Value, next_token};

/// The levels that are left in a group whose tag stands at offset `at`.
pub(crate) fn level_within(levels: u32, at: usize) -> Result<u32, WireFault>
    ensures { MatchResult result (λ left. levels ≡ suc left)
        (λ f. (levels ≡ 0) × (f ≡ record { kind = TooDeep; at = at })) }
{
    if levels == 0 {
        return Err(WireFault {
            kind: WireFaultKind::TooDeep,
            at,
        });
    }
    Ok(levels - 1)
}

/// The bytes after the end of the group with this number, whose tag was read, where so many levels
/// are left in it. The bytes end at offset `ends` of the input.
pub(crate) fn after_group(
    number: u32,
    levels: u32,
    ends: usize,
    bytes: &[u8],
) -> Result<&[u8], WireFault>
    ensures on { (outer : List ℕ) → Skips result
        (λ rest. fields_within (suc levels) ends outer (tokens ends rest.now))
        (fields_within levels ends (number ∷ outer) (tokens ends bytes.now)) }
    ensures shorter { IfOk result (λ rest. length rest.now ≤ length bytes.now) }
{
    let mut rest = bytes;
    while let Some((field, after)) = next_token(ends, rest)? {
        match field.value {
            Value::Group(at) => {
                let left = level_within(levels, at)?;
                rest = after_group(field.number, left, ends, after)?;
            }
            Value::EndGroup(at) => {
                if field.number != number {
                    return Err(WireFault {
                        kind: WireFaultKind::EndGroup,
                        at,
                    });
                }
                return Ok(after);
            }
            _ => rest = after,
        }
    }
    Err(WireFault {
        kind: WireFaultKind::Truncated,
        at: ends,
    })
}
