ghost use Rattle.std.specs.Prelude.{◌≡◌, true, IfOk};
ghost use Rattle.std.specs.List.{list_all, list_any};
ghost use Rattle.xc_base.specs.Words.{is_word, is_name, is_word_byte, is_path_byte};

use crate::list::List;
use crate::memory::Memory;
use std::alloc::Global;
use std::marker::Model;

/// One or more letters, digits, `_`, `.` or `/`. Contracts see it as its bytes.
#[derive(Debug, Drop)]
pub struct Word {
    text: String,
}

impl Model for Word {
    ghost use Rattle.std.specs.Prelude.{List, ℕ, ◌≡◌, true};
    ghost use Rattle.std.specs.String.{string_bytes};
    ghost use Rattle.xc_base.specs.Words.{is_word};

    ghost Value = { List ℕ };

    ghost view = { λ w. string_bytes w.text };

    ghost invariant = { λ w. is_word (string_bytes w.text) ≡ true };
}

/// Whether a byte is a letter, a digit, `_`, `.` or `/`.
pub(crate) fn is_word_byte(b: u8) -> bool
    ensures { result ≡ is_word_byte b }
{
    b.is_ascii_alphanumeric() || b == b'_' || b == b'.' || b == b'/'
}

fn has_word_bytes(bytes: &[u8]) -> bool
    ensures { result ≡ list_all is_word_byte bytes.now }
{
    bytes.iter().all(|b| is_word_byte(*b))
}

fn has_path_byte(bytes: &[u8]) -> bool
    ensures { result ≡ list_any is_path_byte bytes.now }
{
    bytes.iter().any(|b| *b == b'.' || *b == b'/')
}

/// Whether the bytes are one word byte or more.
pub fn is_word_text(bytes: &[u8]) -> bool
    ensures { result ≡ is_word bytes.now }
{
    !bytes.is_empty() && has_word_bytes(bytes)
}

/// Whether the bytes are a name: a word of at most 32 bytes with neither `.` nor `/`.
pub fn is_name_text(bytes: &[u8]) -> bool
    ensures { result ≡ is_name bytes.now }
{
    is_word_text(bytes) && bytes.len() <= 32 && !has_path_byte(bytes)
}

impl Word {
    /// The word of these bytes.
    pub fn of(alloc: Global, bytes: &[u8]) -> Result<Word, Memory>
        requires { is_word bytes.now ≡ true }
        ensures { IfOk result (λ w. w ≡ bytes.now) }
    {
        let mut text = String::new(alloc);
        for b in bytes {
            text.push(*b as char)?;
        }
        Ok(Word { text })
    }

    /// An equal word.
    pub fn copy(&self, alloc: Global) -> Result<Word, Memory>
        ensures { IfOk result (λ w. w ≡ self.now) }
    {
        let text = String::from_str(alloc, self.text.as_str())?;
        Ok(Word { text })
    }

    /// Its text.
    pub fn as_str(&self) -> &str
        ensures text { result.now ≡ self.now }
        ensures word { is_word self.now ≡ true }
    {
        self.text.as_str()
    }

    /// Whether it is a name: at most 32 bytes, and neither `.` nor `/` among them.
    pub fn is_name(&self) -> bool
        ensures { result ≡ is_name self.now }
    {
        is_name_text(self.text.as_bytes())
    }
}

/// Equal words with memory of their own.
pub fn copy_words(alloc: Global, words: &[Word]) -> Result<List<Word>, Memory>
    ensures { IfOk result (λ copies. copies ≡ words.now) }
{
    let mut copies = List::new(alloc);
    for word in words {
        copies.push(word.copy(alloc)?)?;
    }
    Ok(copies)
}
