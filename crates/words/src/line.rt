//! The tokens of a line.
ghost use Rattle.std.specs.Prelude.{◌≡◌, if◌then◌else◌};
ghost use Rattle.words.specs.Lines.{left, Handed};
ghost use Rattle.words.specs.Reading.{headed};
ghost use Rattle.words.specs.Words.{opens_with, after_first};

use crate::cut::first_piece;
use crate::word::number_of;

/// A word: a part of the text, with its line.
#[derive(Clone, Copy)]
pub struct Token<'a> {
    pub text: &'a [u8],
    pub line: usize,
}

/// What is left of a line, and its number.
#[derive(Drop)]
pub struct Line<'a> {
    pub rest: &'a [u8],
    pub number: usize,
}

impl<'a> Line<'a> {
    /// The next token, or None at the end of the line.
    pub fn next_token(&mut self) -> Option<Token<'a>>
        ensures handed { Handed self.old result (left self.new) }
        ensures same { self.new.number ≡ self.old.number }
    {
        let first = first_piece(self.rest, b' ')?;
        self.rest = first.rest;
        Some(Token {
            text: first.piece,
            line: self.number,
        })
    }

    /// Takes the next token if it is `word`, and says so.
    pub fn skip(&mut self, word: &[u8]) -> bool
        ensures answer { result ≡ opens_with word.now (left self.old) }
        ensures rest { left self.new ≡ (if result then after_first (left self.old) else left self.old) }
        ensures same { self.new.number ≡ self.old.number }
    {
        match first_piece(self.rest, b' ') {
            Some(first) if first.piece == word => {
                self.rest = first.rest;
                true
            }
            _ => false,
        }
    }

    /// The count behind an opening word, where the line is these two.
    pub fn headed(&mut self, word: &[u8]) -> Option<u16>
        ensures { result ≡ headed word.now (left self.old) }
    {
        let first = self.next_token()?;
        let second = self.next_token()?;
        if self.next_token().is_some() || first.text != word {
            return None;
        }
        number_of(second.text)
    }
}
