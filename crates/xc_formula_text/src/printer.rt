//! The text of a formula that is written out.

ghost use Rattle.std.specs.Prelude.{◌≡◌, ◌+◌, ◌<◌, ◌≤◌, ◌++◌, ◌∷◌, [], true, length, IfOk, OnOk};
ghost use Rattle.std.specs.List.{list_all};
ghost use Rattle.xc_theory.specs.Codes.{total};
ghost use Rattle.xc_base.specs.Lines.{texts};
ghost use Rattle.xc_base.specs.Names.{name_at};
ghost use Rattle.xc_ctl.specs.Trees.{is_part, sizes_of};
ghost use Rattle.xc_formula_text.specs.Texts.{is_and, is_or, element_tokens, bracketed, until_tokens, tokens_of, text_of};
ghost use Rattle.xc_ctl.specs.Formulas.{signature, tree_of};
ghost use Rattle.xc_ctl.specs.Resolving.{part_at};
ghost use Rattle.xc_ctl.specs.Trees.{is_tree_in};
ghost use Rattle.xc_formula_text.specs.Printing.{is_joined, only_if, digits_from, element_braces};

use std::alloc::Global;
use xc_base::{Bytes, Lexeme, List, Memory, Word, is_word_text, spaced};
use xc_ctl::{Tree, Vocabulary, part_at, total_from};

type Tokens<'v> = List<Lexeme<'v>>;

/// Appends a token.
#[tactic(auto, using(crate::proofs::Printing::texts_more))]
fn push<'v>(tokens: &mut Tokens<'v>, text: &'v [u8]) -> Result<(), Memory>
    ensures { OnOk result (texts tokens.new ≡ texts tokens.old ++ text.now ∷ []) }
{
    let word = is_word_text(text);
    tokens.push(Lexeme { text, word })
}

/// Appends a token, where it is wanted.
#[tactic(auto, using(crate::proofs::Printing::none_more))]
fn push_if<'v>(tokens: &mut Tokens<'v>, text: &'v [u8], wanted: bool) -> Result<(), Memory>
    ensures { OnOk result (texts tokens.new ≡ texts tokens.old ++ only_if wanted text.now) }
{
    if wanted { push(tokens, text) } else { Ok(()) }
}

/// The name of a digit in the part at a place.
fn digit_name(parts: &List<List<Word>>, place: usize, digit: u16) -> &[u8]
    requires place { place < length parts.now }
    requires digit { digit < length (part_at parts.now place) }
    ensures { result.now ≡ name_at (part_at parts.now place) digit }
{
    part_at(parts, place)[usize::from(digit)]
        .as_str()
        .as_bytes()
}

/// Appends the names of an element's digits, with a `,` between two.
#[tactic(auto, using(std::proofs::lemmas::Grind::common_steps, crate::proofs::Printing::digit_steps))]
fn push_digits<'v>(
    parts: &'v List<List<Word>>,
    code: u16,
    tokens: &mut Tokens<'v>,
) -> Result<(), Memory>
    requires fit { list_all is_part parts.now ≡ true }
    requires few { total (sizes_of parts.now) ≤ 4096 }
    requires code { code < total (sizes_of parts.now) }
    ensures { OnOk result (texts tokens.new ≡ texts tokens.old ++ digits_from parts.now 0 code) }
{
    let mut rest = code;
    for place in 0..parts.len() {
        let weight = total_from(parts, place + 1);
        push(tokens, digit_name(parts, place, rest / weight))?;
        push_if(tokens, b",", place + 1 < parts.len())?;
        rest %= weight;
    }
    Ok(())
}

#[tactic(auto, using(xc_ctl::proofs::ElementCodes::fit_parts, xc_ctl::proofs::ElementCodes::fit_total, crate::proofs::Printing::braces_are))]
fn push_braces<'v>(
    vocabulary: &Vocabulary<'v>,
    code: u16,
    tokens: &mut Tokens<'v>,
) -> Result<(), Memory>
    requires { code < total (sizes_of vocabulary.now.parts.now) }
    ensures { OnOk result (texts tokens.new ≡ texts tokens.old ++ element_braces vocabulary.now.parts.now code) }
{
    push(tokens, b"{")?;
    push_digits(vocabulary.parts, code, tokens)?;
    push(tokens, b"}")
}

/// Appends the tokens of an element.
#[tactic(auto, unfolding(crate::specs::Printing::element_braces, crate::specs::Printing::digits_from))]
fn push_element<'v>(
    vocabulary: &Vocabulary<'v>,
    code: u16,
    tokens: &mut Tokens<'v>,
) -> Result<(), Memory>
    requires { code < total (sizes_of vocabulary.now.parts.now) }
    ensures { OnOk result (texts tokens.new ≡ texts tokens.old ++ element_tokens (signature vocabulary.now) code) }
{
    if code == vocabulary.top {
        push(tokens, b"true")
    } else if code == vocabulary.bottom {
        push(tokens, b"false")
    } else {
        push_braces(vocabulary, code, tokens)
    }
}

/// The name of a proposition.
fn prop_name<'v>(vocabulary: &Vocabulary<'v>, place: u16) -> &'v [u8]
    requires { place < length vocabulary.now.props.now }
    ensures { result.now ≡ name_at vocabulary.now.props.now place }
{
    vocabulary.props.as_slice()[usize::from(place)]
        .as_str()
        .as_bytes()
}

fn is_or(tree: &Tree) -> bool
    ensures { result ≡ is_or (tree_of tree.now) }
{
    matches!(tree, Tree::Or(..))
}

fn is_joined(tree: &Tree) -> bool
    ensures { result ≡ is_joined (tree_of tree.now) }
{
    matches!(tree, Tree::And(..) | Tree::Or(..))
}

/// Appends the tokens of a tree, in brackets where they are wanted.
#[tactic(auto, using(crate::proofs::Printing::tree_steps))]
#[cycle(printer)]
fn push_operand<'v>(
    tree: &Tree,
    vocabulary: &Vocabulary<'v>,
    brackets: bool,
    tokens: &mut Tokens<'v>,
) -> Result<(), Memory>
    requires { is_tree_in (total (sizes_of vocabulary.now.parts.now)) (length vocabulary.now.props.now) (tree_of tree.now) ≡ true }
    ensures { OnOk result (texts tokens.new
        ≡ texts tokens.old ++ bracketed brackets (tokens_of (signature vocabulary.now) (tree_of tree.now))) }
{
    push_if(tokens, b"(", brackets)?;
    push_tree(tree, vocabulary, tokens)?;
    push_if(tokens, b")", brackets)
}

/// Appends an operator and what it stands before.
#[tactic(auto, using(crate::proofs::Printing::tree_steps))]
#[cycle(printer)]
fn push_prefixed<'v>(
    word: &'v [u8],
    tree: &Tree,
    vocabulary: &Vocabulary<'v>,
    tokens: &mut Tokens<'v>,
) -> Result<(), Memory>
    requires { is_tree_in (total (sizes_of vocabulary.now.parts.now)) (length vocabulary.now.props.now) (tree_of tree.now) ≡ true }
    ensures { OnOk result (texts tokens.new
        ≡ texts tokens.old ++ word.now ∷ bracketed (is_joined (tree_of tree.now)) (tokens_of (signature vocabulary.now) (tree_of tree.now))) }
{
    push(tokens, word)?;
    push_operand(tree, vocabulary, is_joined(tree), tokens)
}

/// Appends two formulas in brackets, with a token before them.
#[tactic(auto, using(crate::proofs::Printing::tree_steps))]
#[cycle(printer)]
fn push_until<'v>(
    word: &'v [u8],
    left: &Tree,
    right: &Tree,
    vocabulary: &Vocabulary<'v>,
    tokens: &mut Tokens<'v>,
) -> Result<(), Memory>
    requires left { is_tree_in (total (sizes_of vocabulary.now.parts.now)) (length vocabulary.now.props.now) (tree_of left.now) ≡ true }
    requires right { is_tree_in (total (sizes_of vocabulary.now.parts.now)) (length vocabulary.now.props.now) (tree_of right.now) ≡ true }
    ensures { OnOk result (texts tokens.new
        ≡ texts tokens.old ++ until_tokens word.now (tokens_of (signature vocabulary.now) (tree_of left.now)) (tokens_of (signature vocabulary.now) (tree_of right.now))) }
{
    push(tokens, word)?;
    push(tokens, b"[")?;
    push_tree(left, vocabulary, tokens)?;
    push(tokens, b"U")?;
    push_tree(right, vocabulary, tokens)?;
    push(tokens, b"]")
}

/// Appends the tokens of a tree.
#[tactic(auto, using(crate::proofs::Printing::tree_steps))]
#[cycle(printer)]
fn push_tree<'v>(
    tree: &Tree,
    vocabulary: &Vocabulary<'v>,
    tokens: &mut Tokens<'v>,
) -> Result<(), Memory>
    requires { is_tree_in (total (sizes_of vocabulary.now.parts.now)) (length vocabulary.now.props.now) (tree_of tree.now) ≡ true }
    ensures { OnOk result (texts tokens.new ≡ texts tokens.old ++ tokens_of (signature vocabulary.now) (tree_of tree.now)) }
{
    match tree {
        Tree::Const(code) => push_element(vocabulary, *code, tokens),
        Tree::Atom(place) => push(tokens, prop_name(vocabulary, *place)),
        Tree::Not(inner) => push_prefixed(b"!", inner, vocabulary, tokens),
        Tree::Ex(inner) => push_prefixed(b"EX", inner, vocabulary, tokens),
        Tree::Eg(inner) => push_prefixed(b"EG", inner, vocabulary, tokens),
        Tree::Eu(left, right) => push_until(b"E", left, right, vocabulary, tokens),
        Tree::Au(left, right) => push_until(b"A", left, right, vocabulary, tokens),
        Tree::And(left, right) => {
            push_operand(left, vocabulary, is_or(left), tokens)?;
            push(tokens, b"&")?;
            push_operand(right, vocabulary, is_joined(right), tokens)
        }
        Tree::Or(left, right) => {
            push_tree(left, vocabulary, tokens)?;
            push(tokens, b"|")?;
            push_operand(right, vocabulary, is_or(right), tokens)
        }
    }
}

/// The text of a tree.
pub(crate) fn text_of(alloc: Global, tree: &Tree, vocabulary: &Vocabulary) -> Result<Bytes, Memory>
    requires { is_tree_in (total (sizes_of vocabulary.now.parts.now)) (length vocabulary.now.props.now) (tree_of tree.now) ≡ true }
    ensures { IfOk result (λ text. text ≡ text_of (signature vocabulary.now) (tree_of tree.now)) }
{
    let mut tokens = List::new(alloc);
    push_tree(tree, vocabulary, &mut tokens)?;
    spaced(alloc, tokens.as_slice())
}
