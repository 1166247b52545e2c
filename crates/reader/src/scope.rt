//! What the lines behind the variables are read with.
use conditions::variable::Variable;
use std::alloc::Global;

/// The variables that a line may name, and where the memory for what it says comes from.
#[derive(Clone, Copy)]
pub(crate) struct Scope<'k, 'a> {
    pub(crate) known: &'k [Variable<&'a [u8]>],
    pub(crate) heap: Global,
}
