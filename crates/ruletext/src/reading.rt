//! From the bytes of a text to a rule text.
ghost use Rattle.std.specs.Prelude.{◌≡◌, true, map, IfOk, MatchResult};
ghost use Rattle.conditions.specs.Variables.{var_of};
ghost use Rattle.reader.specs.Meanings.{rule_set_of};
ghost use Rattle.reader.specs.declared.fault.ReadFault.TheVariants.{Memory};
ghost use Rattle.ruletext.specs.Forms.{well_formed};
ghost use Rattle.steps.specs.Meaning.{size_of};
ghost use Rattle.ruletext.specs.Texts.{variable_of};
ghost use Rattle.ruletext.specs.Wholes.{rule_set, ReadAs};

use crate::text::RuleText;
use conditions::variable::Variable;
use numbering::sizes::Sizes;
use reader::fault::ReadFault;
use reader::rule_set::RuleSet;
use std::alloc::{AllocError, Global};
use steps::atom::all_atoms;

/// A variable that owns its name.
fn owned(heap: Global, variable: &Variable<&[u8]>) -> Result<Variable<Vec<u8>>, AllocError>
    ensures { IfOk result (λ x. variable_of x ≡ var_of variable.now) }
{
    Ok(Variable {
        name: variable.name.to_vec(heap)?,
        size: variable.size,
        starts: variable.starts.to_vec(heap)?,
    })
}

/// The variables, each with a name of its own.
fn all_owned(
    heap: Global,
    variables: &[Variable<&[u8]>],
) -> Result<Vec<Variable<Vec<u8>>>, AllocError>
    ensures { IfOk result (λ out. map variable_of out.items ≡ map var_of variables.now) }
{
    // Kept: tried with `try_collect`, whose clause doesn't say which variable each item came from, as an item may be an error.
    let mut out = Vec::new(heap);
    for variable in variables {
        out.push(owned(heap, variable)?)?;
    }
    Ok(out)
}

/// The sizes of the variables.
fn sizes_of(heap: Global, variables: &[Variable<Vec<u8>>]) -> Result<Vec<u16>, AllocError>
    ensures { IfOk result (λ out. out.items ≡ map size_of (map variable_of variables.now)) }
{
    variables.iter().map(|variable| variable.size).collect(heap)
}

impl RuleText {
    /// A rule set that a text said, made to own its parts. Its sizes are then accepted, so the only fault is want of memory.
    fn keep(heap: Global, set: RuleSet<'_>) -> Result<RuleText, ReadFault>
        requires { well_formed (rule_set_of set) ≡ true }
        ensures { MatchResult result (λ x. rule_set x ≡ rule_set_of set.entry) (λ e. e ≡ Memory) }
    {
        let RuleSet {
            variables,
            blocks,
            breaks,
        } = set;
        let variables = all_owned(heap, &variables)?;
        let sizes = sizes_of(heap, &variables)?;
        let atoms = all_atoms(heap, &blocks, &breaks)?;
        let widths = Sizes::new(&sizes).unwrap();
        Ok(RuleText {
            variables,
            blocks,
            breaks,
            widths,
            atoms,
        })
    }

    /// What the bytes of a text say; a text that says nothing is refused with the fault of its first faulty line.
    pub fn read(heap: Global, text: &[u8]) -> Result<RuleText, ReadFault>
        ensures { ReadAs text.now result }
    {
        let set = reader::text::read(heap, text)?;
        RuleText::keep(heap, set)
    }
}
