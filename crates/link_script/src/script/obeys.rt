//! What obeys a script.

ghost use Rattle.std.specs.Prelude.{◌≡◌, ◌∷◌, ◌++◌, [], OnOk, Some};
ghost use Rattle.link_script.specs.declared.script.statement.Statement.{Statement};
ghost use Rattle.link_script.specs.declared.script.statement.Statement.TheVariants as say;

use super::said::SaidLocation;
use super::statement::Statement;
use plain_data::Items;
use std::alloc::AllocError;

/// What obeys the statements of a script, one after another.
pub trait Obeys {
    /// Whether a statement takes it from one state to another.
    ghost obeys: { Self → Statement → Self → Type 0 };

    /// Does what a location says, which is the commonest statement and takes less room by itself.
    ///
    /// # Errors
    /// `AllocError` where memory was refused.
    fn locate(&mut self, location: SaidLocation) -> Result<(), AllocError>
        ensures { OnOk result (obeys self.old (say.At location) self.new) };

    /// Does what a statement says.
    ///
    /// # Errors
    /// `AllocError` where memory was refused.
    fn state(&mut self, statement: Statement) -> Result<(), AllocError>
        ensures { OnOk result (obeys self.old statement self.new) };
}

/// A list of statements takes in each behind the others.
impl Obeys for Items<Statement> {
    ghost obeys = { λ old s new. new ≡ old ++ s ∷ [] };

    fn locate(&mut self, location: SaidLocation) -> Result<(), AllocError> {
        self.push(Statement::At(location))
    }

    fn state(&mut self, statement: Statement) -> Result<(), AllocError> {
        self.push(statement)
    }
}

/// The statement that was obeyed last.
#[derive(Drop)]
pub(super) struct LastStatement {
    pub(super) said: Option<Statement>,
}

impl Obeys for LastStatement {
    ghost obeys = { λ _ s new. new.said ≡ Some s };

    fn locate(&mut self, location: SaidLocation) -> Result<(), AllocError> {
        self.said = Some(Statement::At(location));
        Ok(())
    }

    fn state(&mut self, statement: Statement) -> Result<(), AllocError> {
        self.said = Some(statement);
        Ok(())
    }
}
