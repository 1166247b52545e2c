//! The start values of a rule text's variables.
ghost use Rattle.std.specs.Prelude.{◌≡◌, map, length};
ghost use Rattle.steps.specs.Meaning.{all_start};
ghost use Rattle.ruletext.specs.Texts.{variable_of};

use conditions::variable::Variable;
use steps::value::is_among;

/// Whether each variable has one of its start values.
pub(crate) fn all_start(variables: &[Variable<Vec<u8>>], values: &[u16]) -> bool
    requires { length values.now ≡ length variables.now }
    ensures { result ≡ all_start (map variable_of variables.now) values.now }
{
    variables
        .iter()
        .zip(values)
        .all(|(variable, value)| is_among(&variable.starts, *value))
}
