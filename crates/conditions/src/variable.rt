//! The variables that conditions speak of.
ghost use Rattle.std.specs.Prelude.{◌≡◌, length};
ghost use Rattle.conditions.specs.Variables.{declared, names_of, place, size_at, vars_of};

/// A variable: its name, which is a part of the text or owned, the number of its values, and those that it may start with.
#[derive(Drop)]
pub struct Variable<N> {
    pub name: N,
    pub size: u16,
    pub starts: Vec<u16>,
}

/// The place of the variable of this name, or the number of variables where there is none.
pub fn place_of(known: &[Variable<&[u8]>], name: &[u8]) -> usize
    ensures { result ≡ place (names_of known.now) name.now }
{
    known
        .iter()
        .position(|d| d.name == name)
        .unwrap_or(known.len())
}

/// Whether a variable has this name.
pub fn is_declared(known: &[Variable<&[u8]>], name: &[u8]) -> bool
    ensures { result ≡ declared (names_of known.now) name.now }
{
    known.iter().any(|d| d.name == name)
}

/// How many variables there are.
pub fn count_of(known: &[Variable<&[u8]>]) -> usize
    ensures { result ≡ length (vars_of known.now) }
{
    known.len()
}

/// The size of the variable at a place, or 0 where there is none.
pub fn size_at(known: &[Variable<&[u8]>], k: usize) -> u16
    ensures { result ≡ size_at (vars_of known.now) k }
{
    known.get(k).map_or(0, |d| d.size)
}
