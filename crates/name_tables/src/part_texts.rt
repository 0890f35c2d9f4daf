ghost use Rattle.std.specs.Prelude.{◌≡◌, ◌≤◌, ◌<◌, ◌++◌, ◌∷◌, [], ℕ, List, length, slice_index};
ghost use Rattle.std.specs.Prelude.{IfOk, OnOk, OnErr, Some};
ghost use Rattle.std.specs.List.{slice_get};
ghost use Rattle.name_tables.specs.PartTexts.{cut_from, RiseFrom};

use std::alloc::{AllocError, Global};
use std::marker::Model;

/// About how many bytes a text has.
const USUAL_LENGTH: usize = 16;

/// Texts that stand one behind another in one buffer. Contracts see them as a list.
#[derive(Drop)]
pub(crate) struct PartTexts {
    bytes: Vec<u8>,
    /// Where each text ends; it begins where the one before it ends.
    ends: Vec<usize>,
}

impl Model for PartTexts {
    ghost use Rattle.std.specs.Prelude.{ℕ, List, length};
    ghost use Rattle.name_tables.specs.PartTexts.{cut_from, RiseFrom};

    ghost Value = { List (List ℕ) };

    ghost view = { λ texts. cut_from 0 texts.bytes.items texts.ends.items };

    ghost invariant = { λ texts. RiseFrom 0 texts.ends.items (length texts.bytes.items) };
}

impl PartTexts {
    /// No texts, which take no memory.
    pub(crate) fn new(alloc: Global) -> PartTexts
        ensures { result ≡ [] }
    {
        PartTexts {
            bytes: Vec::new(alloc),
            ends: Vec::new(alloc),
        }
    }

    /// The bytes of a text.
    pub(crate) fn get(&self, at: usize) -> &[u8]
        requires { at < length self.now }
        ensures { slice_get self.now at ≡ Some result.now }
    {
        let start = start(&self.ends, at);
        let end = self.ends[at];
        &self.bytes[start..end]
    }

    /// Adds a text at the end.
    ///
    /// # Errors
    /// `AllocError` where memory was refused.
    #[inline(always)]
    pub(crate) fn push(&mut self, text: &[u8]) -> Result<(), AllocError>
        ensures ok { OnOk result (self.new ≡ self.old ++ text.now ∷ []) }
        ensures err { OnErr result (self.new ≡ self.old) }
    {
        trim(&mut self.bytes, &self.ends);
        self.bytes.extend_from_slice(text)?;
        self.ends.push(self.bytes.len())?;
        Ok(())
    }

    /// Makes room for so many texts more, of names as they mostly are.
    ///
    /// # Errors
    /// `AllocError` where memory was refused.
    pub(crate) fn reserve(&mut self, more: usize) -> Result<(), AllocError>
        ensures { self.new ≡ self.old }
    {
        self.ends.reserve(more)?;
        self.bytes.reserve(more.saturating_mul(USUAL_LENGTH))
    }

    /// Takes away the last text.
    pub(crate) fn pop(&mut self)
        requires { 0 < length self.old }
        ensures { (t : List ℕ) × (self.old ≡ self.new ++ t ∷ []) }
    {
        self.ends.pop();
    }

    /// Equal texts.
    ///
    /// # Errors
    /// `AllocError` where memory was refused.
    pub(crate) fn clone(&self) -> Result<PartTexts, AllocError>
        ensures { IfOk result (λ copy. copy ≡ self.now) }
    {
        let bytes = self.bytes.clone()?;
        let ends = self.ends.clone()?;
        Ok(PartTexts { bytes, ends })
    }
}

/// Where a text begins; behind the last one, where the next would.
fn start(ends: &[usize], at: usize) -> usize
    requires { at ≤ length ends.now }
    ensures { result ≡ slice_index (0 ∷ ends.now) at }
{
    if at == 0 { 0 } else { ends[at - 1] }
}

/// Takes away the bytes behind the last end, which no text has.
fn trim(bytes: &mut Vec<u8>, ends: &[usize])
    requires { RiseFrom 0 ends.now (length bytes.old.items) }
    ensures len { length bytes.new.items ≡ slice_index (0 ∷ ends.now) (length ends.now) }
    ensures rises { RiseFrom 0 ends.now (length bytes.new.items) }
    ensures same { cut_from 0 bytes.new.items ends.now ≡ cut_from 0 bytes.old.items ends.now }
{
    bytes.truncate(start(ends, ends.len()));
}
