//! From a state's number to its values, and back.
ghost use Rattle.std.specs.Prelude.{◌≡◌, ℕ, ◌<◌, ◌≤◌, true, false, length, take, IfSome, if◌then◌else◌, Some, None, MatchOption, slice_index};
ghost use Rattle.columns.specs.Columns.{product, values, number, fit};
ghost use Rattle.numbering.specs.Limits.{sound_sizes, Multiplied};
ghost use Rattle.numbering.specs.Numbers.{sizes_in, values_in};

use crate::sizes::{Sizes, Values};
use columns::source::MOST_VARIABLES;
use rules::list::MOST_STATES;

/// The fewest values that a variable may have.
pub const LEAST_VALUES: u16 = 2;

/// The most values that a variable may have.
pub const MOST_VALUES: u16 = 16;

impl Values {
    /// The values, the first variable's first.
    pub fn as_slice(&self) -> &[u16]
        ensures { result.now ≡ values_in self.now }
    {
        &self.each[..self.count]
    }

    /// The value of the variable k, 0 of a number that is no variable.
    pub fn value(&self, k: usize) -> u16
        ensures { result ≡ slice_index (values_in self.now) k }
    {
        self.as_slice().get(k).copied().unwrap_or(0)
    }
}

/// The product of the sizes, if each is 2 to 16 and it is at most 4,096.
fn multiplied(sizes: &[u16]) -> Option<u16>
    ensures { Multiplied sizes.now result }
{
    let mut p = 1;
    for d in sizes {
        if !(LEAST_VALUES..=MOST_VALUES).contains(d) {
            return None;
        }
        p *= usize::from(*d);
        if p > MOST_STATES {
            return None;
        }
    }
    Some(p as u16)
}

/// Numbers in an array of fixed length, 0 behind them.
fn padded(given: &[u16]) -> [u16; MOST_VARIABLES]
    requires { length given.now ≤ 12 }
    ensures { take (length given.now) result ≡ given.now }
{
    let mut each = [0; MOST_VARIABLES];
    each[..given.len()].copy_from_slice(given);
    each
}

impl Sizes {
    /// These sizes, if they are accepted.
    pub fn new(given: &[u16]) -> Option<Sizes>
        ensures { MatchOption result (sound_sizes given.now ≡ false) (λ x. sizes_in x ≡ given.now) }
    {
        let count = given.len();
        if !(1..=MOST_VARIABLES).contains(&count) {
            return None;
        }
        let states = multiplied(given)?;
        Some(Sizes {
            each: padded(given),
            count,
            states,
        })
    }

    /// How many variables there are.
    pub fn count(&self) -> u16
        ensures { result ≡ length (sizes_in self.now) }
    {
        self.count as u16
    }

    /// How many values the variable v has; 0 of a number that is no variable.
    pub fn size(&self, v: usize) -> u16
        ensures { result ≡ slice_index (sizes_in self.now) v }
    {
        self.as_slice().get(v).copied().unwrap_or(0)
    }

    /// How many states there are.
    pub fn states(&self) -> u16
        ensures { result ≡ product (sizes_in self.now) }
    {
        self.states
    }

    /// The values of the variables in the state `s`.
    pub fn values(&self, s: u16) -> Values
        ensures { values_in result ≡ values (sizes_in self.now) s }
    {
        let mut each = [0; MOST_VARIABLES];
        let mut w = self.states;
        let mut rest = s;
        for (i, size) in self.as_slice().iter().enumerate() {
            w /= *size;
            each[i] = rest / w;
            rest %= w;
        }
        Values {
            each,
            count: self.count,
        }
    }

    /// The number of the state with these values, if there are as many as variables and each is below its size.
    pub fn number(&self, given: &[u16]) -> Option<u16>
        ensures tells { result ≡ (if fit (sizes_in self.now) given.now then Some (number (sizes_in self.now) given.now) else None) }
        ensures back { IfSome result (λ n. values (sizes_in self.now) n ≡ given.now) }
    {
        let sizes = self.as_slice();
        if given.len() != sizes.len() {
            return None;
        }
        let mut n = 0;
        for (value, size) in given.iter().zip(sizes) {
            if value >= size {
                return None;
            }
            n = n * *size + *value;
        }
        Some(n)
    }
}
