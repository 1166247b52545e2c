//! How a state is printed.
use columns::source::ColumnedSource;
use ruletext::text::RuleText;
use std::fmt;

/// A state of a text's rules, by the names and the values of its variables.
#[derive(Drop)]
pub struct NamedState<'a> {
    pub text: &'a RuleText,
    pub state: u16,
}

impl fmt::Display for NamedState<'_> {
    fn fmt<W: fmt::Write>(&self, f: &mut fmt::Formatter<W>) -> fmt::Result {
        for v in 0..self.text.variables() {
            if let (Some(name), Some(value)) = (self.text.name(v), self.text.value(self.state, v)) {
                if v > 0 {
                    f.write_char(' ')?;
                }
                for letter in name {
                    f.write_char(char::from(*letter))?;
                }
                write!(f, " {value}")?;
            }
        }
        Ok(())
    }
}
