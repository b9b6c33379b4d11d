use xc_base::Word;

/// A guard as it is written, with names.
#[derive(Debug, Drop)]
pub enum Phrase {
    True,
    False,
    /// `X = W`
    Equal(Word, Word),
    /// `X != W`
    Unequal(Word, Word),
    Not(Box<Phrase>),
    And(Box<Phrase>, Box<Phrase>),
    Or(Box<Phrase>, Box<Phrase>),
}
