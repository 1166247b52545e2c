//! What a rule text says.
use conditions::condition::Cond;
use conditions::variable::Variable;

/// What a variable may become: a number, or the value of a variable with a number added to it.
#[derive(Clone, Copy)]
pub enum Effect {
    Plain(u16),
    Sum(usize, u16),
}

/// A line of a block: where the condition holds, the block's variable may become each of the results.
#[derive(Drop)]
pub struct Case {
    pub cond: Cond,
    pub effects: Vec<Effect>,
}

/// The variables, a block for each of them, and the conditions that break.
#[derive(Drop)]
pub struct RuleSet<'a> {
    pub variables: Vec<Variable<&'a [u8]>>,
    pub blocks: Vec<Vec<Case>>,
    pub breaks: Vec<Cond>,
}
