//! The third section of a rule text: the breaks.
ghost use Rattle.words.specs.Lines.{lines_of};
ghost use Rattle.conditions.specs.Conditions.{tree};
ghost use Rattle.conditions.specs.Variables.{vars_of};
ghost use Rattle.reader.specs.Answers.{Tells};
ghost use Rattle.reader.specs.BreakLines.{break_line, section_breaks};
ghost use Rattle.reader.specs.Meanings.{trees_in};

use crate::fault::ReadFault;
use crate::scope::Scope;
use conditions::condition::Cond;
use conditions::parser::whole_condition;
use conditions::variable::count_of;
use words::text_reader::TextReader;

/// The most breaks that a text may have.
const MOST_BREAKS: u16 = 8;

impl Scope<'_, '_> {
    /// A condition that breaks, on a line of its own.
    fn break_line(&self, reader: &mut TextReader<'_>) -> Result<Cond, ReadFault>
        ensures { Tells tree (break_line (vars_of self.now.known.now) reader.old.line (lines_of reader.old)) result reader.new }
    {
        let mut line = reader.next_line()?;
        let number = line.number;
        let cond = whole_condition(&mut line, self.heap, self.known)?;
        if !cond.is_known(count_of(self.known)) {
            return Err(ReadFault::Undeclared(number));
        }
        Ok(cond)
    }

    /// The section: a heading, and a line for each break.
    pub(crate) fn breaks(&self, reader: &mut TextReader<'_>) -> Result<Vec<Cond>, ReadFault>
        ensures { Tells trees_in (section_breaks (vars_of self.now.known.now) reader.old.line (lines_of reader.old)) result reader.new }
    {
        let count = reader.heading(b"breaks")?;
        if count > MOST_BREAKS {
            return Err(ReadFault::Limit(reader.line));
        }
        let mut out = Vec::new(self.heap);
        // Kept: tried as a chain into `try_collect`, but the proof does not learn what that leaves of the reader.
        for _i in 0..count {
            let cond = self.break_line(reader)?;
            out.push(cond)?;
        }
        Ok(out)
    }
}
