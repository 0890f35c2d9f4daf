//! What a trial tells, and the marks before and behind its call.
use std::alloc::{AllocError, Global};
use std::fmt;

/// The size of a request that no call makes.
const MARK: usize = 7777;

/// What a call answered, and whether all is then as it should be.
#[derive(Drop)]
pub(crate) struct Told {
    answer: String,
    state: String,
}

impl Told {
    /// What a trial tells in the two rooms that it asked for before and behind its call.
    ///
    /// # Errors
    /// `AllocError` where a room was refused, so that no trial ends before its call is compared.
    pub(crate) fn new(
        before: Result<String, AllocError>,
        behind: Result<String, AllocError>,
        answer: &str,
        is_right: bool,
    ) -> Result<Told, AllocError> {
        let mut told = Told {
            answer: before?,
            state: behind?,
        };
        told.answer.push_str(answer)?;
        told.state
            .push_str(if is_right { "right" } else { "wrong" })?;
        Ok(told)
    }
}

impl fmt::Display for Told {
    fn fmt<W: fmt::Write>(&self, f: &mut fmt::Formatter<W>) -> fmt::Result {
        write!(f, "{}, {}", self.answer.as_str(), self.state.as_str())
    }
}

/// Room for what is told later. By the size of this request whoever refuses memory knows where the
/// call of a trial begins, and where it has ended.
pub(crate) fn mark(alloc: Global) -> Result<String, AllocError> {
    String::with_capacity(alloc, MARK)
}

/// A word for how a call ended.
pub(crate) fn answer(is_done: bool) -> &'static str {
    if is_done { "done" } else { "out of memory" }
}
