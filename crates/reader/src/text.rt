//! A whole rule text.
ghost use Rattle.words.specs.Lines.{lines_of};
ghost use Rattle.reader.specs.Answers.{Answers, Tells};
ghost use Rattle.reader.specs.Meanings.{rule_set_of};
ghost use Rattle.reader.specs.Says.{ReadsExactly};
ghost use Rattle.reader.specs.WholeTexts.{sections};

use crate::fault::ReadFault;
use crate::rule_set::RuleSet;
use crate::scope::Scope;
use crate::variables::variables;
use std::alloc::Global;
use words::text::check_text;
use words::text_reader::TextReader;

/// The three sections, and nothing behind them.
fn sections<'a>(reader: &mut TextReader<'a>, heap: Global) -> Result<RuleSet<'a>, ReadFault>
    ensures { Tells rule_set_of (sections reader.old.line (lines_of reader.old)) result reader.new }
{
    let variables = variables(reader, heap)?;
    let scope = Scope {
        known: &variables,
        heap,
    };
    let blocks = scope.blocks(reader)?;
    let breaks = scope.breaks(reader)?;
    reader.ending()?;
    Ok(RuleSet {
        variables,
        blocks,
        breaks,
    })
}

/// The rule set that a text says; a text that says none is refused with the fault of its first faulty line.
pub fn read(heap: Global, text: &[u8]) -> Result<RuleSet<'_>, ReadFault>
    ensures { Answers text.now result }
{
    check_text(text)?;
    let mut reader = TextReader::new(text);
    sections(&mut reader, heap)
}

/// A text is read exactly if the grammar has it say a rule set, and then that one is read.
pub fn reader_exact()
    ensures { ReadsExactly }
{}
