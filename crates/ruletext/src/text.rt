//! A rule text that was read.
ghost use Rattle.std.specs.Prelude.{◌≡◌, true};
ghost use Rattle.numbering.specs.Numbers.{sizes_in};
ghost use Rattle.steps.specs.Atoms.{atoms_of};
ghost use Rattle.ruletext.specs.Forms.{well_formed};
ghost use Rattle.steps.specs.Meaning.{sizes};
ghost use Rattle.ruletext.specs.Texts.{set_of};

use conditions::condition::{Atom, Cond};
use conditions::variable::Variable;
use numbering::sizes::Sizes;
use reader::rule_set::Case;

/// A well-formed rule set that owns its parts, with its sizes and its atoms at hand.
#[derive(Drop)]
pub struct RuleText {
    pub(crate) variables: Vec<Variable<Vec<u8>>>,
    pub(crate) blocks: Vec<Vec<Case>>,
    pub(crate) breaks: Vec<Cond>,
    pub(crate) widths: Sizes,
    pub(crate) atoms: Vec<Atom>,
    ghost formed: { well_formed (set_of variables blocks breaks) ≡ true },
    ghost sized: { sizes_in widths ≡ sizes (set_of variables blocks breaks) },
    ghost listed: { atoms.items ≡ atoms_of (set_of variables blocks breaks) },
}
