//! What changes of older versions: in a report of GitLab's code quality, and as a log of SARIF.

ghost use Rattle.std.specs.Prelude.{◌≡◌, ◌++◌, IfOk, OnOk, map, string_bytes};
ghost use Rattle.verdict_texts.specs.Changes as spec;
ghost use Rattle.verdict_texts.specs.Fingerprints.{marked};

use crate::ToldFault;
use crate::change_rules::CHANGE_RULES;
use crate::fingerprints::Marked;
use crate::members::{write_key, write_next_key, write_next_text_member, write_text_member};
use crate::quality::fault_mark;
use crate::sarif::write_result_members;
use plain_data::Text;
use std::alloc::{AllocError, Global};

/// What is told of changes besides.
#[derive(Clone, Copy)]
pub struct ChangeMarks<'a> {
    /// The word for their level.
    pub level: &'a str,
    /// The word for the direction in which the versions are compared.
    pub direction: &'a str,
    /// The name of the older version.
    pub against: &'a str,
}

impl ChangeMarks<'_> {
    /// The mark of a change: the direction, the older version, and the mark of a fault.
    #[tactic(auto, unfolding(crate::specs::Changes::change_mark))]
    fn mark(self, alloc: Global, told: &ToldFault) -> Result<String, AllocError>
        ensures { IfOk result (λ s. string_bytes s
            ≡ spec.change_mark (spec.marks self.entry) told.now) }
    {
        let direction = self.direction;
        let against = self.against;
        let mark = fault_mark(alloc, told)?;
        let mark = mark.as_str();
        format!(in alloc; "{direction} {against} {mark}")
    }

    /// Writes the marks as an object.
    #[tactic(auto, unfolding(crate::specs::Changes::marks_object))]
    fn write_object(self, text: &mut String) -> Result<(), AllocError>
        ensures { OnOk result (string_bytes text.new ≡ string_bytes text.old
            ++ spec.marks_object (spec.marks self.entry)) }
    {
        text.push_str("{")?;
        write_text_member(text, "level", self.level)?;
        write_next_text_member(text, "direction", self.direction)?;
        write_next_text_member(text, "against", self.against)?;
        text.push_str("}")
    }

    /// Writes a change as a result, with its marks as its properties.
    #[tactic(auto, unfolding(crate::specs::Changes::change_result))]
    fn write_result(
        self,
        alloc: Global,
        text: &mut String,
        told: &ToldFault,
    ) -> Result<(), AllocError>
        ensures { OnOk result (string_bytes text.new ≡ string_bytes text.old
            ++ spec.change_result (spec.marks self.entry) told.now) }
    {
        write_result_members(alloc, text, told)?;
        write_next_key(text, "properties")?;
        self.write_object(text)?;
        text.push_str("}")
    }

    /// Appends changes and their marks, for a report of GitLab's code quality.
    ///
    /// # Errors
    /// `AllocError` where memory was refused.
    pub fn push_marked<'t>(
        self,
        alloc: Global,
        all: &mut Vec<Marked<'t>>,
        told: &'t [ToldFault],
    ) -> Result<(), AllocError>
        ensures { OnOk result (map marked all.new.items ≡ map marked all.old.items
            ++ spec.marked_changes (spec.marks self.entry) told.now) }
    {
        for change in told {
            let mark = self.mark(alloc, change)?;
            all.push(Marked {
                mark: Text::from_string(mark),
                told: change,
            })?;
        }
        Ok(())
    }

    /// Writes changes as results of a log of SARIF, with a comma before each.
    ///
    /// # Errors
    /// `AllocError` where memory was refused.
    pub fn write_results(
        self,
        alloc: Global,
        text: &mut String,
        told: &[ToldFault],
    ) -> Result<(), AllocError>
        ensures { OnOk result (string_bytes text.new ≡ string_bytes text.old
            ++ spec.sarif_changes (spec.marks self.entry) told.now) }
    {
        for change in told {
            text.push(',')?;
            self.write_result(alloc, text, change)?;
        }
        Ok(())
    }
}

/// The beginning of a log, with its one run: the tool and the kinds of changes.
fn change_rules(alloc: Global) -> Result<String, AllocError>
    ensures { IfOk result (λ s. string_bytes s ≡ spec.change_rules) }
{
    String::from_str(alloc, CHANGE_RULES)
}

/// Writes what was compared as the properties of a run.
#[tactic(auto, unfolding(crate::specs::Changes::compared_properties))]
fn write_compared(text: &mut String, compared: &str) -> Result<(), AllocError>
    ensures { OnOk result (string_bytes text.new ≡ string_bytes text.old
        ++ spec.compared_properties compared.now) }
{
    text.push_str("{")?;
    write_key(text, "compared")?;
    text.push_str("[")?;
    text.push_str(compared)?;
    text.push_str("]}")
}

/// A log of SARIF, version 2.1.0, whose rules are the kinds of changes, by its results and by
/// entries for what was compared, with a comma between each two.
///
/// # Errors
/// `AllocError` where memory was refused.
pub fn sarif_of(alloc: Global, results: &str, compared: &str) -> Result<String, AllocError>
    ensures { IfOk result (λ s. string_bytes s ≡ spec.sarif_of results.now compared.now) }
{
    let mut text = change_rules(alloc)?;
    write_next_key(&mut text, "results")?;
    text.push_str("[")?;
    text.push_str(results)?;
    text.push_str("]")?;
    write_next_key(&mut text, "properties")?;
    write_compared(&mut text, compared)?;
    text.push_str("}]}\n")?;
    Ok(text)
}
