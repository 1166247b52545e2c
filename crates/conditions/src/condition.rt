//! Conditions, and whether one holds.
ghost use Rattle.std.specs.Prelude.{◌≡◌};
ghost use Rattle.conditions.specs.Conditions.{tree, truth, value, known_operand, known_tree, atom_truth, atom_reads, known_atom};

/// How the two sides of a comparison stand to each other.
#[derive(Clone, Copy, PartialEq, Eq, Debug)]
pub enum Relation {
    Equal,
    Less,
}

/// The right side of a comparison. A variable is given by its place among the variables.
#[derive(Clone, Copy, PartialEq, Eq, Debug)]
pub enum Operand {
    Variable(usize),
    Number(u16),
}

/// A comparison: a variable, given by its place among the variables, and what it is compared with.
#[derive(Clone, Copy, PartialEq, Eq, Debug)]
pub struct Atom {
    pub variable: usize,
    pub relation: Relation,
    pub operand: Operand,
}

/// A condition on the values of the variables.
#[derive(Drop)]
pub enum Cond {
    Always,
    Compare(Atom),
    Not(Box<Cond>),
    And(Box<Cond>, Box<Cond>),
    Or(Box<Cond>, Box<Cond>),
}

impl Operand {
    /// The value where the variables have these values; a variable that is not there counts as 0.
    fn value(self, values: &[u16]) -> u16
        ensures { result ≡ value values.now self }
    {
        match self {
            Operand::Variable(k) => values.get(k).copied().unwrap_or(0),
            Operand::Number(n) => n,
        }
    }

    /// Whether the variable, if it is one, is one of the first `count`.
    fn is_known(self, count: usize) -> bool
        ensures { result ≡ known_operand count self }
    {
        match self {
            Operand::Variable(k) => k < count,
            Operand::Number(_) => true,
        }
    }
}

impl Atom {
    /// Whether the comparison is true where the variables have these values; a variable that is not there counts as 0.
    pub fn holds(self, values: &[u16]) -> bool
        ensures { result ≡ atom_truth values.now self }
    {
        let left = Operand::Variable(self.variable).value(values);
        let right = self.operand.value(values);
        match self.relation {
            Relation::Equal => left == right,
            Relation::Less => left < right,
        }
    }

    /// Whether the variable v stands in the comparison.
    pub fn reads(self, v: usize) -> bool
        ensures { result ≡ atom_reads self v }
    {
        self.variable == v || matches!(self.operand, Operand::Variable(k) if k == v)
    }

    /// Whether each variable is one of the first `count`.
    fn is_known(self, count: usize) -> bool
        ensures { result ≡ known_atom count self }
    {
        self.variable < count && self.operand.is_known(count)
    }
}

impl Cond {
    /// Whether the condition holds where the variables have these values; a variable that is not there counts as 0.
    pub fn holds(&self, values: &[u16]) -> bool
        ensures { result ≡ truth values.now (tree self.now) }
    {
        match self {
            Cond::Always => true,
            Cond::Compare(atom) => atom.holds(values),
            Cond::Not(c) => !c.holds(values),
            Cond::And(c, d) => c.holds(values) && d.holds(values),
            Cond::Or(c, d) => c.holds(values) || d.holds(values),
        }
    }

    /// Whether each variable is one of the first `count`.
    pub fn is_known(&self, count: usize) -> bool
        ensures { result ≡ known_tree count (tree self.now) }
    {
        match self {
            Cond::Always => true,
            Cond::Compare(atom) => atom.is_known(count),
            Cond::Not(c) => c.is_known(count),
            Cond::And(c, d) | Cond::Or(c, d) => c.is_known(count) && d.is_known(count),
        }
    }
}
