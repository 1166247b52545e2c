//! One step of a transition list.

#[derive(Clone, Copy, PartialEq, Eq, Debug)]
pub struct Transition {
    pub from: u16,
    pub to: u16,
}
