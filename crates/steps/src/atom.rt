//! The comparisons of a rule text.
ghost use Rattle.std.specs.Prelude.{◌≡◌, ◌++◌, map, IfOk, OnOk};
ghost use Rattle.std.specs.List.{flat_map};
ghost use Rattle.conditions.specs.Conditions.{tree};
ghost use Rattle.reader.specs.Meanings.{rule_of, rules_in};
ghost use Rattle.steps.specs.Atoms.{atoms_in, block_atoms};

use conditions::condition::{Atom, Cond};
use reader::rule_set::Case;
use std::alloc::{AllocFailed, Global};

/// Puts the comparisons of a condition, from left to right, behind those that `out` holds.
fn condition_atoms(c: &Cond, out: &mut Vec<Atom>) -> Result<(), AllocFailed<Atom>>
    ensures { OnOk result (out.new.items ≡ out.old.items ++ atoms_in (tree c.now)) }
{
    match c {
        Cond::Always => Ok(()),
        Cond::Compare(atom) => out.push(*atom),
        Cond::Not(a) => condition_atoms(a, out),
        Cond::And(a, b) | Cond::Or(a, b) => {
            condition_atoms(a, out)?;
            condition_atoms(b, out)
        }
    }
}

/// The comparisons in reading order: the blocks', then the break lines'.
pub fn all_atoms(
    heap: Global,
    blocks: &[Vec<Case>],
    breaks: &[Cond],
) -> Result<Vec<Atom>, AllocFailed<Atom>>
    ensures { IfOk result (λ out. out.items ≡ flat_map block_atoms (map rules_in blocks.now) ++ flat_map atoms_in (map tree breaks.now)) }
{
    let mut out = Vec::new(heap);
    for block in blocks {
        for case in block {
            condition_atoms(&case.cond, &mut out)?;
        }
    }
    for condition in breaks {
        condition_atoms(condition, &mut out)?;
    }
    Ok(out)
}
