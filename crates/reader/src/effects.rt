//! The results of a block's line: what the block's variable may become.
ghost use Rattle.std.specs.Prelude.{◌≡◌, ℕ, ◌≤◌, [], length, vec_items};
ghost use Rattle.words.specs.Lines.{left};
ghost use Rattle.conditions.specs.Answers.{Parses};
ghost use Rattle.conditions.specs.Variables.{names_of, vars_of};
ghost use Rattle.reader.specs.Answers.{Forms};
ghost use Rattle.reader.specs.BlockLines.{known_effect, small_effect, fitting_effect};
ghost use Rattle.reader.specs.CaseWords.{effect, effects};

use crate::fault::ReadFault;
use crate::rule_set::Effect;
use crate::scope::Scope;
use conditions::variable::{Variable, place_of, size_at};
use words::fault::WordFault;
use words::line::Line;
use words::word::{is_name, number_of};

impl Scope<'_, '_> {
    /// A number, a name, or a name, `+` and a number.
    fn effect(&self, line: &mut Line<'_>) -> Result<Effect, WordFault>
        ensures says { Parses (λ e. e) (effect (names_of self.now.known.now) (left line.old)) line.old.number result (left line.new) }
        ensures same { line.new.number ≡ line.old.number }
    {
        let fault = WordFault::Form(line.number);
        let first = line.next_token().ok_or(fault)?;
        if !is_name(first.text) {
            let n = number_of(first.text).ok_or(fault)?;
            return Ok(Effect::Plain(n));
        }
        let place = place_of(self.known, first.text);
        if !line.skip(b"+") {
            return Ok(Effect::Sum(place, 0));
        }
        let second = line.next_token().ok_or(fault)?;
        let n = number_of(second.text).ok_or(fault)?;
        Ok(Effect::Sum(place, n))
    }

    /// Results parted by `,`, up to the end of the line.
    pub(crate) fn effects(&self, line: &mut Line<'_>) -> Result<Vec<Effect>, ReadFault>
        ensures { (n : ℕ) → length (left line.old) ≤ n → Forms vec_items (effects (names_of self.now.known.now) n [] (left line.old)) line.old.number result }
    {
        let fault = WordFault::Form(line.number);
        let mut out = Vec::new(self.heap);
        loop {
            let e = self.effect(line)?;
            out.push(e)?;
            if !line.skip(b",") {
                break;
            }
        }
        if line.next_token().is_some() {
            return Err(ReadFault::Word(fault));
        }
        Ok(out)
    }
}

impl Effect {
    /// Whether the variable, if it names one, is one of the first `count`.
    pub(crate) fn is_known(self, count: usize) -> bool
        ensures { result ≡ known_effect count self }
    {
        match self {
            Effect::Plain(_) => true,
            Effect::Sum(k, _) => k < count,
        }
    }

    /// Whether the number, if it is one, is below the size.
    pub(crate) fn is_small(self, size: u16) -> bool
        ensures { result ≡ small_effect size self }
    {
        match self {
            Effect::Plain(n) => n < size,
            Effect::Sum(_, _) => true,
        }
    }

    /// Whether the variable, if it names one, is no larger than the size.
    pub(crate) fn is_fitting(self, known: &[Variable<&[u8]>], size: u16) -> bool
        ensures { result ≡ fitting_effect (vars_of known.now) size self }
    {
        match self {
            Effect::Plain(_) => true,
            Effect::Sum(k, _) => size_at(known, k) <= size,
        }
    }
}
