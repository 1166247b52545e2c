//! A rule text as a columned source.
ghost use Rattle.steps.specs.Atoms.{text_columns};
ghost use Rattle.ruletext.specs.Wholes.{rule_set};

use crate::text::RuleText;
use columns::source::ColumnedSource;
use rules::source::RuleSource;

impl ColumnedSource for RuleText {
    ghost columns = { λ x. text_columns (rule_set x) };

    fn variables(&self) -> u16 {
        self.widths.count()
    }

    fn width(&self, v: u16) -> Option<u16> {
        self.widths.as_slice().get(usize::from(v)).copied()
    }

    #[tactic(auto, using(columns::proofs::Digits::length_values))]
    fn value(&self, s: u16, v: u16) -> Option<u16> {
        if s >= self.widths.states() || v >= self.widths.count() {
            return None;
        }
        let values = self.widths.values(s);
        values.as_slice().get(usize::from(v)).copied()
    }

    fn atoms(&self) -> u16 {
        self.atoms.len() as u16
    }

    fn holds(&self, atom: u16, s: u16) -> bool {
        self.atoms.get(usize::from(atom)).is_some_and(|atom| {
            s < self.widths.states() && atom.holds(self.widths.values(s).as_slice())
        })
    }

    fn reads(&self, atom: u16, v: u16) -> bool {
        self.atoms.get(usize::from(atom)).is_some_and(|atom| v < self.widths.count()
            && atom.reads(usize::from(v)))
    }
}
