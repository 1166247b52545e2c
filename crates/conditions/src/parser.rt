//! Conditions read from the words of a line, by functions that call each other: the words that are left fall.
ghost use Rattle.std.specs.Prelude.{◌≡◌, MatchOption};
ghost use Rattle.words.specs.Lines.{left};
ghost use Rattle.conditions.specs.Answers.{Formed, ParserExact, Reads, Takes};
ghost use Rattle.conditions.specs.Conditions.{tree};
ghost use Rattle.conditions.specs.Grammar.{relation, operand, or_level, and_level, not_level, base_level};
ghost use Rattle.conditions.specs.Parser.{alone, comparison, condition};
ghost use Rattle.conditions.specs.Variables.{names_of};

use crate::condition::{Atom, Cond, Operand, Relation};
use crate::fault::ConditionFault;
use crate::variable::{Variable, place_of};
use std::alloc::Global;
use words::fault::WordFault;
use words::line::Line;
use words::word::{is_name, number_of};

/// The condition that the rest of a line is.
pub fn whole_condition(
    line: &mut Line<'_>,
    heap: Global,
    known: &[Variable<&[u8]>],
) -> Result<Cond, ConditionFault>
    ensures takes { Takes (names_of known.now) (left line.old) line.old.number result }
    ensures formed { Formed tree (alone (condition (names_of known.now) (left line.old))) line.old.number result }
{
    let cond = disjunction(line, heap, known)?;
    match line.next_token() {
        None => Ok(cond),
        Some(word) => Err(ConditionFault::Word(WordFault::Form(word.line))),
    }
}

/// The condition that a line begins with: conditions joined by `or`.
pub fn disjunction(
    line: &mut Line<'_>,
    heap: Global,
    known: &[Variable<&[u8]>],
) -> Result<Cond, ConditionFault>
    ensures { Reads (names_of known.now) or_level line.old result line.new }
{
    Parser { heap, known }.disjunction(line)
}

/// What the reader of conditions stands on: the heap that the trees are put in, and the variables that they may name.
#[derive(Clone, Copy)]
struct Parser<'p, 'a> {
    heap: Global,
    known: &'p [Variable<&'a [u8]>],
}

impl<'p, 'a> Parser<'p, 'a> {
    /// Conditions joined by `or`.
    #[cycle(parser)]
    fn disjunction(&self, line: &mut Line<'_>) -> Result<Cond, ConditionFault>
        ensures { Reads (names_of self.now.known.now) or_level line.old result line.new }
    {
        let first = self.conjunction(line)?;
        if !line.skip(b"or") {
            return Ok(first);
        }
        let second = self.disjunction(line)?;
        Ok(Cond::Or(Box::new(self.heap, first)?, Box::new(self.heap, second)?))
    }

    /// Conditions joined by `and`.
    // Kept: one function for this and `disjunction` would take the level below, itself and the variant as closures, each with a contract that the words left fall.
    #[cycle(parser)]
    fn conjunction(&self, line: &mut Line<'_>) -> Result<Cond, ConditionFault>
        ensures { Reads (names_of self.now.known.now) and_level line.old result line.new }
    {
        let first = self.negation(line)?;
        if !line.skip(b"and") {
            return Ok(first);
        }
        let second = self.conjunction(line)?;
        Ok(Cond::And(Box::new(self.heap, first)?, Box::new(self.heap, second)?))
    }

    /// A condition with any number of `not` in front.
    #[cycle(parser)]
    fn negation(&self, line: &mut Line<'_>) -> Result<Cond, ConditionFault>
        ensures { Reads (names_of self.now.known.now) not_level line.old result line.new }
    {
        if line.skip(b"not") {
            let inner = self.negation(line)?;
            return Ok(Cond::Not(Box::new(self.heap, inner)?));
        }
        self.primary(line)
    }

    /// A condition in brackets, `always` or a comparison.
    #[cycle(parser)]
    fn primary(&self, line: &mut Line<'_>) -> Result<Cond, ConditionFault>
        ensures { Reads (names_of self.now.known.now) base_level line.old result line.new }
    {
        if line.skip(b"(") {
            let inner = self.disjunction(line)?;
            if !line.skip(b")") {
                return Err(ConditionFault::Word(WordFault::Form(line.number)));
            }
            return Ok(inner);
        }
        if line.skip(b"always") {
            return Ok(Cond::Always);
        }
        self.comparison(line)
            .ok_or(ConditionFault::Word(WordFault::Form(line.number)))
    }

    /// A name, `=` or `<`, then a name or a number.
    fn comparison(&self, line: &mut Line<'_>) -> Option<Cond>
        ensures says { MatchOption result (comparison (names_of self.now.known.now) (left line.old) ≡ None) (λ c. comparison (names_of self.now.known.now) (left line.old) ≡ Some (tree c, left line.new)) }
        ensures same { line.new.number ≡ line.old.number }
    {
        let name = line.next_token()?;
        let sign = line.next_token()?;
        let other = line.next_token()?;
        if !is_name(name.text) {
            return None;
        }
        let relation = relation_of(sign.text)?;
        let operand = operand_of(self.known, other.text)?;
        Some(Cond::Compare(Atom {
            variable: place_of(self.known, name.text),
            relation,
            operand,
        }))
    }
}

/// What a sign of a comparison says.
fn relation_of(word: &[u8]) -> Option<Relation>
    ensures { result ≡ relation word.now }
{
    match word {
        b"=" => Some(Relation::Equal),
        b"<" => Some(Relation::Less),
        _ => None,
    }
}

/// The right side that a word is: a name or a number.
fn operand_of(known: &[Variable<&[u8]>], word: &[u8]) -> Option<Operand>
    ensures { result ≡ operand (names_of known.now) word.now }
{
    if is_name(word) {
        return Some(Operand::Variable(place_of(known, word)));
    }
    number_of(word).map(Operand::Number)
}

/// The parser takes exactly the words that the grammar derives, at their meaning.
pub fn parser_exact()
    ensures { ParserExact }
{}
