use super::keyword::{may_be_amended, open_or_close, says_more, stands};
use super::statement::{Block, Keyword};
use std::alloc::{AllocError, Global};

/// What stands before a statement.
#[derive(Drop)]
pub(crate) struct Standing {
    /// The open blocks, the innermost last.
    blocks: Vec<Block>,
    /// Whether more may be said of the last statement.
    more: bool,
}

impl Standing {
    ghost use Rattle.std.specs.Prelude.{◌≡◌, ◌≢◌, OnOk, OnErr, [], true, false};
    ghost use Rattle.link_script.specs.Script.Answers.{standing_in};
    ghost use Rattle.link_script.specs.Script.Keyword as spec;

    /// Before the first statement.
    pub(super) fn new(alloc: Global) -> Standing
        ensures { standing_in result ≡ spec.at_start }
    {
        Standing {
            blocks: Vec::new(alloc),
            more: false,
        }
    }

    /// Whether a statement may stand here.
    pub(super) fn may_stand(&self, keyword: Keyword) -> bool
        ensures { result ≡ spec.may_stand (standing_in self.now) keyword }
    {
        if says_more(keyword) {
            self.more
        } else {
            stands(&self.blocks, keyword)
        }
    }

    /// Goes behind a statement.
    pub(super) fn follow(&mut self, keyword: Keyword) -> Result<(), AllocError>
        ensures ok { OnOk result (standing_in self.new
            ≡ spec.standing_after (standing_in self.old) keyword) }
        ensures err { OnErr result (standing_in self.new ≡ standing_in self.old) }
    {
        open_or_close(&mut self.blocks, keyword)?;
        self.more = may_be_amended(keyword);
        Ok(())
    }

    /// Whether a block is open.
    pub(super) fn is_open(&self) -> bool
        ensures closed { result ≡ false → (standing_in self.now).blocks ≡ [] }
        ensures open { result ≡ true → (standing_in self.now).blocks ≢ [] }
    {
        !self.blocks.is_empty()
    }
}
