//! The names of a rule text's variables, and its states by their values.
ghost use Rattle.std.specs.Prelude.{◌≡◌, ◌<◌, ◌≤◌, [], length, IfSome, if◌then◌else◌, Some, None};
ghost use Rattle.columns.specs.Columns.{number, fit};
ghost use Rattle.numbering.specs.Numbers.{values_in};
ghost use Rattle.steps.specs.Meaning.{sizes, values_at};
ghost use Rattle.ruletext.specs.Wholes.{rule_set, Named};

use crate::text::RuleText;
use numbering::sizes::Values;

impl RuleText {
    /// The name of the variable v.
    pub fn name(&self, v: u16) -> Option<&[u8]>
        ensures { Named (rule_set self.now) v result }
    {
        let variable = self.variables.get(usize::from(v))?;
        Some(variable.name.as_slice())
    }

    /// The values of the variables in the state `s`.
    pub fn values(&self, s: u16) -> Values
        ensures { values_in result ≡ values_at (rule_set self.now) s }
    {
        self.widths.values(s)
    }

    /// The number of the state with these values, if there are as many as variables and each is below its size.
    pub fn number(&self, given: &[u16]) -> Option<u16>
        ensures tells { result ≡ (if fit (sizes (rule_set self.now)) given.now then Some (number (sizes (rule_set self.now)) given.now) else None) }
        ensures back { IfSome result (λ n. values_at (rule_set self.now) n ≡ given.now) }
    {
        self.widths.number(given)
    }
}
