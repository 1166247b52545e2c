//! The lines of a text.
ghost use Rattle.std.specs.Prelude.{◌≡◌, true};
ghost use Rattle.words.specs.Lines.{left, lines_of, WordTells, Opens, Numbered};
ghost use Rattle.words.specs.Reading.{next_line, headed, line_of, ending};
ghost use Rattle.words.specs.Texts.{spaced, is_line, plain};
ghost use Rattle.words.specs.Words.{each};

use crate::cut::first_piece;
use crate::fault::WordFault;
use crate::line::Line;
use crate::text_reader::TextReader;

/// The longest text, in bytes.
pub const MOST_BYTES: usize = 8192;

/// The longest line, in bytes, without the one that ends it.
pub const MOST_LINE_BYTES: usize = 120;

/// Whether each byte may stand in a text: it ends a line, or is printable.
fn all_plain(text: &[u8]) -> bool
    ensures { result ≡ each plain text.now }
{
    text.iter().all(|b| matches!(b, b'\n' | b' '..=b'~'))
}

/// Whether no space stands first, last or behind another, and there is a word.
fn is_spaced(line: &[u8]) -> bool
    ensures { result ≡ spaced true line.now }
{
    line.split(|b| *b == b' ').all(|word| !word.is_empty())
}

/// Whether bytes are a line: at most 120 of them, in words one space apart.
fn is_line(line: &[u8]) -> bool
    ensures { result ≡ is_line line.now }
{
    line.len() <= MOST_LINE_BYTES && is_spaced(line)
}

/// Whether these bytes are a text: 1 to 8,192 plain bytes, the last of which ends a line.
pub fn check_text(text: &[u8]) -> Result<(), WordFault>
    ensures { Opens text.now result }
{
    if text.len() > MOST_BYTES || text.last() != Some(&b'\n') || !all_plain(text) {
        return Err(WordFault::Text);
    }
    Ok(())
}

impl<'a> TextReader<'a> {
    /// A reader of all lines.
    pub fn new(text: &'a [u8]) -> TextReader<'a>
        ensures rest { result.rest.now ≡ text.now }
        ensures line { result.line ≡ 0 }
    {
        TextReader {
            rest: text,
            line: 0,
        }
    }

    /// The next line, which has to be there and to be one.
    pub fn next_line(&mut self) -> Result<Line<'a>, WordFault>
        ensures tells { WordTells left (next_line self.old.line (lines_of self.old)) result self.new }
        ensures numbered { Numbered result self.new }
    {
        let first = first_piece(self.rest, b'\n').ok_or(WordFault::Missing(self.line + 1))?;
        self.rest = first.rest;
        self.line += 1;
        if !is_line(first.piece) {
            return Err(WordFault::Spacing(self.line));
        }
        Ok(Line {
            rest: first.piece,
            number: self.line,
        })
    }

    /// The count of a line that is an opening word and a count.
    pub fn heading(&mut self, word: &[u8]) -> Result<u16, WordFault>
        ensures { WordTells (λ n. n) (line_of (headed word.now) self.old.line (lines_of self.old)) result self.new }
    {
        let mut line = self.next_line()?;
        line.headed(word).ok_or(WordFault::Form(self.line))
    }

    /// Sees that nothing follows.
    pub fn ending(&mut self) -> Result<(), WordFault>
        ensures { WordTells (λ u. u) (ending self.old.line (lines_of self.old)) result self.new }
    {
        if self.rest.is_empty() {
            return Ok(());
        }
        let line = self.next_line()?;
        Err(WordFault::Trailing(line.number))
    }
}
