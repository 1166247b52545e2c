//! The second section of a rule text: the blocks.
ghost use Rattle.std.specs.Prelude.{◌≡◌, ◌&&◌};
ghost use Rattle.std.specs.Option.{option_map};
ghost use Rattle.words.specs.Lines.{left, lines_of};
ghost use Rattle.words.specs.Words.{each};
ghost use Rattle.conditions.specs.Conditions.{known_tree, tree};
ghost use Rattle.conditions.specs.Variables.{names_of, vars_of};
ghost use Rattle.reader.specs.Answers.{Forms, Tells};
ghost use Rattle.reader.specs.BlockLines.{title, known_effect, small_effect, fitting_effect, block_line, block_head, block, section_blocks};
ghost use Rattle.reader.specs.CaseWords.{rule};
ghost use Rattle.reader.specs.Meanings.{rule_of, rules_in, title_of, blocks_in};

use crate::fault::ReadFault;
use crate::rule_set::Case;
use crate::scope::Scope;
use conditions::parser::disjunction;
use conditions::variable::{Variable, count_of, place_of, size_at};
use words::fault::WordFault;
use words::line::Line;
use words::text_reader::TextReader;
use words::word::{is_name, number_of};

/// The most lines that a block may have.
const MOST_CASES: u16 = 8;

/// The first line of a block: a variable's name, and how many lines follow.
#[derive(Clone, Copy)]
pub(crate) struct BlockTitle<'a> {
    pub(crate) name: &'a [u8],
    pub(crate) count: u16,
}

impl Case {
    /// Whether each variable is one of the first `count`.
    fn is_known(&self, count: usize) -> bool
        ensures { result ≡ (known_tree count (tree self.now.cond) && each (known_effect count) self.now.effects.items) }
    {
        self.cond.is_known(count) && self.effects.iter().all(|e| e.is_known(count))
    }

    /// Whether each number is below the size.
    fn is_small(&self, size: u16) -> bool
        ensures { result ≡ each (small_effect size) self.now.effects.items }
    {
        self.effects.iter().all(|e| e.is_small(size))
    }

    /// Whether no variable that a result names is larger than the size.
    fn is_fitting(&self, known: &[Variable<&[u8]>], size: u16) -> bool
        ensures { result ≡ each (fitting_effect (vars_of known.now) size) self.now.effects.items }
    {
        self.effects.iter().all(|e| e.is_fitting(known, size))
    }
}

/// A name and a count.
fn title<'a>(line: &mut Line<'a>) -> Option<BlockTitle<'a>>
    ensures { option_map title_of result ≡ title (left line.old) }
{
    let name = line.next_token()?.text;
    let count = line.next_token()?.text;
    if line.next_token().is_some() || !is_name(name) {
        return None;
    }
    Some(BlockTitle {
        name,
        count: number_of(count)?,
    })
}

impl Scope<'_, '_> {
    /// A condition, `:` and results.
    fn rule(&self, line: &mut Line<'_>) -> Result<Case, ReadFault>
        ensures { Forms rule_of (rule (names_of self.now.known.now) (left line.old)) line.old.number result }
    {
        let fault = WordFault::Form(line.number);
        let cond = disjunction(line, self.heap, self.known)?;
        if !line.skip(b":") {
            return Err(ReadFault::Word(fault));
        }
        let effects = self.effects(line)?;
        Ok(Case { cond, effects })
    }

    /// A line of the block of the variable `i`.
    fn block_line(&self, reader: &mut TextReader<'_>, i: usize) -> Result<Case, ReadFault>
        ensures { Tells rule_of (block_line (vars_of self.now.known.now) i reader.old.line (lines_of reader.old)) result reader.new }
    {
        let mut line = reader.next_line()?;
        let number = line.number;
        let case = self.rule(&mut line)?;
        if !case.is_known(count_of(self.known)) {
            return Err(ReadFault::Undeclared(number));
        }
        let size = size_at(self.known, i);
        if !case.is_small(size) {
            return Err(ReadFault::Value(number));
        }
        if !case.is_fitting(self.known, size) {
            return Err(ReadFault::Larger(number));
        }
        Ok(case)
    }

    /// The first line of the block of the variable `i`: how many lines follow.
    fn block_head(&self, reader: &mut TextReader<'_>, i: usize) -> Result<u16, ReadFault>
        ensures { Tells (λ k. k) (block_head (vars_of self.now.known.now) i reader.old.line (lines_of reader.old)) result reader.new }
    {
        let mut line = reader.next_line()?;
        let number = line.number;
        let title = title(&mut line).ok_or(WordFault::Form(number))?;
        if title.count > MOST_CASES {
            return Err(ReadFault::Limit(number));
        }
        if place_of(self.known, title.name) != i {
            return Err(ReadFault::Undeclared(number));
        }
        Ok(title.count)
    }

    /// The block of the variable `i`.
    fn block(&self, reader: &mut TextReader<'_>, i: usize) -> Result<Vec<Case>, ReadFault>
        ensures { Tells rules_in (block (vars_of self.now.known.now) i reader.old.line (lines_of reader.old)) result reader.new }
    {
        let count = self.block_head(reader, i)?;
        let mut cases = Vec::new(self.heap);
        // Kept: as in `breaks`, the proof does not learn what a chain into `try_collect` leaves of the reader.
        for _j in 0..count {
            let case = self.block_line(reader, i)?;
            cases.push(case)?;
        }
        Ok(cases)
    }

    /// The section: a heading, and a block for each variable.
    pub(crate) fn blocks(&self, reader: &mut TextReader<'_>) -> Result<Vec<Vec<Case>>, ReadFault>
        ensures { Tells blocks_in (section_blocks (vars_of self.now.known.now) reader.old.line (lines_of reader.old)) result reader.new }
    {
        let count = usize::from(reader.heading(b"blocks")?);
        if count != count_of(self.known) {
            return Err(ReadFault::Limit(reader.line));
        }
        let mut out = Vec::new(self.heap);
        // Kept: as in `breaks`, the proof does not learn what a chain into `try_collect` leaves of the reader.
        for i in 0..count {
            let block = self.block(reader, i)?;
            out.push(block)?;
        }
        Ok(out)
    }
}
