//! Names by their numbers, and tokens as words.
//! It must not know lines, nor which names are functions.

ghost use Rattle.std.specs.Prelude.{◌≡◌, ◌≤◌, ◌<◌, ◌+◌, ◌^◌, ◌∷◌, List as ListOf, length, OnOk, IfOk};
ghost use Rattle.aplc_lex.specs.Tokens.{Rise};
ghost use Rattle.aplc_lex.specs.declared.token.Token.{Token as TokenOf};
ghost use Rattle.aplc_syntax.specs.Words.{with_name, number_of, names_in, with_token, kind_of, words, sign};
ghost use Rattle.aplc_syntax.specs.Numbers.{AreLinked, read_out};

use crate::tree::{Axis, Primitive};
use crate::word::{Role, Stroke, Word, WordKind};
use aplc_lex::{List, Token, TokenKind};
use aplc_scalar::ScalarFn;
use indexmap::IndexSet;
use std::alloc::{AllocError, Global};

/// What a symbol is to the grammar.
#[tactic(auto, unfolding(crate::specs::Words::sign))]
fn sign(c: char) -> WordKind
    ensures { result ≡ sign c }
{
    match c {
        '+' => WordKind::Arith(ScalarFn::Add),
        '-' => WordKind::Arith(ScalarFn::Sub),
        '×' => WordKind::Arith(ScalarFn::Mul),
        '⌈' => WordKind::Arith(ScalarFn::Max),
        '⌊' => WordKind::Arith(ScalarFn::Min),
        '|' => WordKind::Arith(ScalarFn::Residue),
        '<' => WordKind::Compare(ScalarFn::Less),
        '≤' => WordKind::Compare(ScalarFn::LessEq),
        '=' => WordKind::Compare(ScalarFn::Equal),
        '≥' => WordKind::Compare(ScalarFn::GreaterEq),
        '>' => WordKind::Compare(ScalarFn::Greater),
        '≠' => WordKind::Compare(ScalarFn::NotEqual),
        '∧' => WordKind::Compare(ScalarFn::And),
        '∨' => WordKind::Compare(ScalarFn::Or),
        '⍲' => WordKind::Compare(ScalarFn::Nand),
        '⍱' => WordKind::Compare(ScalarFn::Nor),
        '~' => WordKind::Not,
        '⍴' => WordKind::Both(Primitive::Shape),
        ',' => WordKind::Both(Primitive::Ravel),
        '⍳' => WordKind::Both(Primitive::Iota),
        '⍉' => WordKind::Both(Primitive::Transpose),
        '↑' => WordKind::Dyadic(Primitive::Take),
        '↓' => WordKind::Dyadic(Primitive::Drop),
        '∊' => WordKind::Dyadic(Primitive::Member),
        '⌽' => WordKind::Turn(Axis::Last),
        '⊖' => WordKind::Turn(Axis::First),
        '/' => WordKind::Stroke(Stroke::Slash, Axis::Last),
        '⌿' => WordKind::Stroke(Stroke::Slash, Axis::First),
        '\\' => WordKind::Stroke(Stroke::Backslash, Axis::Last),
        '⍀' => WordKind::Stroke(Stroke::Backslash, Axis::First),
        '∘' => WordKind::Jot,
        '.' => WordKind::Dot,
        '←' => WordKind::Assign,
        '→' => WordKind::Branch,
        '(' => WordKind::Open,
        ')' => WordKind::Close,
        '[' => WordKind::OpenBracket,
        ']' => WordKind::CloseBracket,
        ';' => WordKind::Semicolon,
        ':' => WordKind::Colon,
        '⍞' => WordKind::TextInput,
        '⎕' => WordKind::Quad,
        '∇' => WordKind::Del,
        _ => WordKind::Other,
    }
}

/// The names so far by their numbers, and again in order.
#[derive(Drop)]
struct Names<'a> {
    numbers: IndexSet<&'a [u8]>,
    names: Vec<List<u8>>,
}

impl<'a> Names<'a> {
    /// The number of a name, which is new or was met before.
    fn number(&mut self, alloc: Global, name: &'a [u8]) -> Result<u32, AllocError>
        requires linked { AreLinked self.old.numbers.keys self.old.names.items }
        requires few { length self.old.names.items < 2 ^ 32 }
        ensures linked { OnOk result (AreLinked self.new.numbers.keys self.new.names.items) }
        ensures names { OnOk result (self.new.names.items ≡ with_name self.old.names.items name.now) }
        ensures number { IfOk result (λ n. n ≡ number_of self.new.names.items name.now) }
    {
        let (number, is_new) = self.numbers.insert_full(name)?;
        if !is_new {
            return Ok(number as u32);
        }
        let bytes = Vec::from_slice(alloc, name)?;
        self.names.push(List::from_vec(bytes))?;
        Ok(number as u32)
    }

    /// What a token is to the grammar; a name is noted.
    fn kind(&mut self, alloc: Global, text: &'a [u8], token: Token) -> Result<WordKind, AllocError>
        requires linked { AreLinked self.old.numbers.keys self.old.names.items }
        requires few { length self.old.names.items < 2 ^ 32 }
        requires rises { token.span.from < token.span.to }
        requires within { token.span.to ≤ length text.now }
        requires short { length text.now ≤ 262144 }
        ensures linked { OnOk result (AreLinked self.new.numbers.keys self.new.names.items) }
        ensures names { OnOk result (self.new.names.items ≡ with_token text.now self.old.names.items token) }
        ensures kind { IfOk result (λ k. k ≡ kind_of text.now self.new.names.items token token.kind) }
    {
        match token.kind {
            TokenKind::Name => {
                let name = &text[token.span.from as usize..token.span.to as usize];
                Ok(WordKind::Name(Role::Variable, self.number(alloc, name)?))
            }
            TokenKind::Number(v) => Ok(WordKind::Number(v)),
            TokenKind::Text => Ok(WordKind::Text(token.span.to as u32)),
            TokenKind::NumsInput => Ok(WordKind::NumsInput),
            TokenKind::Symbol(c) => Ok(sign(c)),
            TokenKind::LineEnd => Ok(WordKind::LineEnd(token.span.to as u32)),
        }
    }
}

/// The names and the words so far.
#[derive(Drop)]
struct Reader<'a> {
    names: Names<'a>,
    words: Vec<Word>,
}

impl<'a> Reader<'a> {
    /// One more token.
    fn token(&mut self, alloc: Global, text: &'a [u8], token: Token) -> Result<(), AllocError>
        requires linked { AreLinked self.old.names.numbers.keys self.old.names.names.items }
        requires few { length self.old.names.names.items < 2 ^ 32 }
        requires rises { token.span.from < token.span.to }
        requires within { token.span.to ≤ length text.now }
        requires short { length text.now ≤ 262144 }
        ensures linked { OnOk result (AreLinked self.new.names.numbers.keys self.new.names.names.items) }
        ensures few { OnOk result (length self.new.names.names.items ≤ length self.old.names.names.items + 1) }
        ensures rest { OnOk result ((ts : ListOf TokenOf) → read_out text.now self.new.names.names.items self.new.words.items ts ≡ read_out text.now self.old.names.names.items self.old.words.items (token ∷ ts)) }
    {
        let kind = self.names.kind(alloc, text, token)?;
        let place = token.span.from as u32;
        self.words.push(Word { kind, place })?;
        Ok(())
    }
}

/// The names of a text, and its tokens as words.
pub fn words(
    alloc: Global,
    text: &[u8],
    tokens: &[Token],
) -> Result<(List<List<u8>>, Vec<Word>), AllocError>
    requires length { length text.now ≤ 262144 }
    requires rise { Rise 0 tokens.now (length text.now) }
    ensures names { IfOk result (λ r. r.0 ≡ names_in text.now tokens.now) }
    ensures words { IfOk result (λ r. r.1.items ≡ words text.now tokens.now) }
{
    let mut reader = Reader {
        names: Names {
            numbers: IndexSet::new(alloc),
            names: Vec::new(alloc),
        },
        words: Vec::new(alloc),
    };
    for token in tokens {
        reader.token(alloc, text, *token)?;
    }
    let Reader { names, words } = reader;
    let Names { numbers: _, names } = names;
    Ok((List::from_vec(names), words))
}
