//! A text cut into lines, as the readers of statements go over it.

ghost use Rattle.std.specs.Prelude.{◌≡◌, ◌<◌, true, length};
ghost use Rattle.xc_base.specs.Text.{are_within};

use crate::list::List;
use crate::memory::Memory;
use std::alloc::Global;

/// Where a token stands in a text: its bytes are those at the places `start..end`.
#[derive(Clone, Copy, Debug, PartialEq, Eq)]
pub struct Token {
    pub start: usize,
    pub end: usize,
    /// Whether it is a word, and not a symbol.
    pub word: bool,
}

/// A line that has a token.
#[derive(Debug, Drop)]
pub struct Line {
    /// Its number in the text, from 1 on.
    pub number: u32,
    pub tokens: List<Token>,
}

/// A text cut into lines: those that have a token.
#[derive(Debug, Drop)]
pub struct Lines<'a> {
    pub source: &'a [u8],
    pub rows: List<Line>,
    // each token is a part of the text
    pub ghost within: { are_within (length source.now) rows ≡ true },
}

/// One token, as a reader sees it: its bytes in place of where they stand.
#[derive(Clone, Copy, Debug)]
pub struct Lexeme<'a> {
    pub text: &'a [u8],
    /// Whether it is a word, and not a symbol.
    pub word: bool,
}

impl<'a> Lines<'a> {
    ghost use Rattle.std.specs.Prelude.{◌+◌, ◌∷◌, IfOk, drop, map};
    ghost use Rattle.xc_base.specs.Lines.{rows_in, row_at, texts, words_at};

    /// How many rows there are.
    pub fn len(&self) -> usize
        ensures rows { result ≡ length self.now.rows }
        ensures seen { result ≡ length (rows_in self.now) }
    {
        self.rows.len()
    }

    /// The number that the line of a row has in the text.
    pub fn number(&self, row: usize) -> u32
        requires { row < length self.now.rows }
        ensures { result ≡ (row_at (rows_in self.now) row).number }
    {
        self.rows.get(row).number
    }

    /// The tokens of a row, in their order, or the want of memory for their list.
    #[tactic(auto, using(crate::proofs::Rows::row_steps))]
    pub fn lexemes(&self, alloc: Global, row: usize) -> Result<List<Lexeme<'a>>, Memory>
        requires { row < length self.now.rows }
        ensures tokens { IfOk result (λ xs. texts xs ≡ (row_at (rows_in self.now) row).tokens) }
        ensures words { IfOk result (λ xs. map (λ x. x.word) xs ≡ words_at self.now row) }
        // with the row's number this is the first of the rows that a loop has left
        ensures first { IfOk result
            (λ xs. drop row (rows_in self.now)
            ≡ record { number = (row_at (rows_in self.now) row).number; tokens = texts xs }
            ∷ drop (row + 1) (rows_in self.now)) }
    {
        let mut lexemes = List::new(alloc);
        for token in self.rows.get(row).tokens.as_slice() {
            let text = &self.source[token.start..token.end];
            lexemes.push(Lexeme {
                text,
                word: token.word,
            })?;
        }
        Ok(lexemes)
    }
}
