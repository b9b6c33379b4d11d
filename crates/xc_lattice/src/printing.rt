//! Lattices as canonical files.

ghost use Rattle.std.specs.Prelude.{◌≡◌, ◌<◌, ◌≤◌, ℕ, [], ◌∷◌, ◌++◌, None, length, map, codes, IfOk, OnOk};
ghost use Rattle.std.specs.List.{flat_map};
ghost use Rattle.xc_theory.specs.Lattices.{size};
ghost use Rattle.xc_theory.specs.Orders.{elements};
ghost use Rattle.xc_base.specs.Canonical.{canonical};
ghost use Rattle.xc_base.specs.Lines.{text_rows};
ghost use Rattle.xc_base.specs.Text.{text_fault};
ghost use Rattle.xc_lattice.specs.LatticeFiles.{spelling, IsVerdict};
ghost use Rattle.xc_lattice.specs.LatticeFiles.Verdict.{Lawful};
ghost use Rattle.xc_lattice.specs.Printed.{is_strictly_below, below_statements, not_statements, lattice_lines};
ghost use Rattle.xc_lattice.specs.Values.{value_of};

use crate::lattice::Lattice;
use std::alloc::Global;
use xc_base::{Bytes, Lexeme, List, Memory, Word, push_line};

// A word as a token.
fn token(word: &Word) -> Lexeme<'_>
    ensures { result.text.now ≡ word.now }
{
    Lexeme {
        text: word.as_str().as_bytes(),
        word: true,
    }
}

// Appends a line of a word and names.
fn push_names(alloc: Global, text: &mut Bytes, head: &[u8], names: &[Word]) -> Result<(), Memory>
    ensures { OnOk result (text.new ≡ text.old ++ canonical ((head.now ∷ names.now) ∷ [])) }
{
    let mut tokens = List::new(alloc);
    tokens.push(Lexeme {
        text: head,
        word: true,
    })?;
    for name in names {
        tokens.push(token(name))?;
    }
    push_line(text, tokens.as_slice())
}

// Appends a line of a word and two names.
fn push_pair(text: &mut Bytes, head: &[u8], first: &Word, second: &Word) -> Result<(), Memory>
    ensures { OnOk result (text.new
        ≡ text.old ++ canonical ((head.now ∷ first.now ∷ second.now ∷ []) ∷ [])) }
{
    let head = Lexeme {
        text: head,
        word: true,
    };
    push_line(text, &[head, token(first), token(second)])
}

impl Lattice {
    // Appends the line of its name.
    fn push_head(&self, text: &mut Bytes) -> Result<(), Memory>
        ensures { OnOk result (text.new
            ≡ text.old ++ canonical ((codes "lattice" ∷ (value_of self.now).name ∷ []) ∷ [])) }
    {
        let head = Lexeme {
            text: b"lattice",
            word: true,
        };
        push_line(text, &[head, token(self.name())])
    }

    // Appends the line of its elements.
    fn push_elements(&self, alloc: Global, text: &mut Bytes) -> Result<(), Memory>
        ensures { OnOk result (text.new
            ≡ text.old ++ canonical ((codes "elements" ∷ (value_of self.now).names) ∷ [])) }
    {
        push_names(alloc, text, b"elements", self.names().as_slice())
    }

    // Whether `a` is below `b` and another element.
    fn is_strictly_below(&self, a: u8, b: u8) -> bool
        requires a_in { a < size (value_of self.now).algebra }
        requires b_in { b < size (value_of self.now).algebra }
        ensures { result ≡ is_strictly_below (value_of self.now).algebra a b }
    {
        a != b && self.order().le(a, b)
    }

    // Appends that `a` is below `b`, where it is strictly below.
    #[tactic(auto, using(crate::proofs::PrintedLines::pair_steps))]
    fn push_below_pair(&self, text: &mut Bytes, a: u8, b: u8) -> Result<(), Memory>
        requires a_in { a < size (value_of self.now).algebra }
        requires b_in { b < size (value_of self.now).algebra }
        ensures { OnOk result (text.new
            ≡ text.old ++ canonical (map spelling (below_statements (value_of self.now) a (b ∷ [])))) }
    {
        if !self.is_strictly_below(a, b) {
            return Ok(());
        }
        let names = self.names();
        push_pair(text, b"below", names.get(a as usize), names.get(b as usize))
    }

    // Appends what `a` is strictly below.
    #[tactic(auto, using(crate::proofs::PrintedLines::below_steps))]
    fn push_below(&self, text: &mut Bytes, a: u8) -> Result<(), Memory>
        requires { a < size (value_of self.now).algebra }
        ensures { OnOk result (text.new
            ≡ text.old
            ++ canonical
            (map spelling (below_statements (value_of self.now) a (elements (value_of self.now).algebra.order)))) }
    {
        for b in 0..self.size() {
            self.push_below_pair(text, a, b)?;
        }
        Ok(())
    }

    // Appends what each element is strictly below.
    #[tactic(auto, using(crate::proofs::PrintedLines::order_steps))]
    fn push_order(&self, text: &mut Bytes) -> Result<(), Memory>
        ensures { OnOk result (text.new
            ≡ text.old
            ++ canonical
            (map
            spelling
            (flat_map
            (λ a. below_statements (value_of self.now) a (elements (value_of self.now).algebra.order))
            (elements (value_of self.now).algebra.order)))) }
    {
        for a in 0..self.size() {
            self.push_below(text, a)?;
        }
        Ok(())
    }

    // Appends the negation of `a`.
    fn push_negation(&self, text: &mut Bytes, a: u8) -> Result<(), Memory>
        requires { a < size (value_of self.now).algebra }
        ensures { OnOk result (text.new
            ≡ text.old ++ canonical (map spelling (not_statements (value_of self.now) (a ∷ [])))) }
    {
        let negation = *self.negations().get(a as usize);
        let names = self.names();
        push_pair(
            text,
            b"not",
            names.get(a as usize),
            names.get(negation as usize),
        )
    }

    // Appends the negation of each element.
    #[tactic(auto, using(crate::proofs::PrintedLines::not_steps))]
    fn push_negations(&self, text: &mut Bytes) -> Result<(), Memory>
        ensures { OnOk result (text.new
            ≡ text.old
            ++ canonical
            (map spelling (not_statements (value_of self.now) (elements (value_of self.now).algebra.order)))) }
    {
        for a in 0..self.size() {
            self.push_negation(text, a)?;
        }
        Ok(())
    }

    // The text alone.
    fn text(&self, alloc: Global) -> Result<Bytes, Memory>
        ensures { IfOk result (λ text. text ≡ canonical (lattice_lines (value_of self.now))) }
    {
        let mut text = List::new(alloc);
        self.push_head(&mut text)?;
        self.push_elements(alloc, &mut text)?;
        self.push_order(&mut text)?;
        self.push_negations(&mut text)?;
        Ok(text)
    }

    /// The lattice as a canonical file: its name, its elements, all pairs of different elements of which the first is
    /// below the second, and the negation of each element.
    ///
    /// It is read again as the same lattice, and no line of it is too long.
    pub fn print(&self, alloc: Global) -> Result<Bytes, Memory>
        ensures text { IfOk result (λ text. text ≡ canonical (lattice_lines (value_of self.now))) }
        ensures again { IfOk result (λ text. IsVerdict (text_rows text) (Lawful (value_of self.now))) }
        ensures sound { IfOk result
            (λ text. (limit : ℕ) → length text ≤ limit → text_fault limit text ≡ None) }
    {
        self.text(alloc)
    }
}
