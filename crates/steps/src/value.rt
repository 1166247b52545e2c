//! Values in a list.
ghost use Rattle.std.specs.Prelude.{◌≡◌, slice_index};
ghost use Rattle.steps.specs.Meaning.{among};

/// The value of the variable v, 0 where there is none.
pub fn value_at(values: &[u16], v: usize) -> u16
    ensures { result ≡ slice_index values.now v }
{
    values.get(v).copied().unwrap_or(0)
}

/// Whether x is among these.
pub fn is_among(xs: &[u16], x: u16) -> bool
    ensures { result ≡ among xs.now x }
{
    xs.contains(&x)
}
