// The names that an expression may use.
ghost use Rattle.std.specs.Prelude.{◌≡◌, ◌≢◌, ◌++◌, ◌∷◌, ℕ, List, [], length, IfOk, OnOk, MatchOption, Some, false};
ghost use Rattle.std.specs.Char.{is_ascii_alphabetic};
ghost use Rattle.std.specs.List.{list_any, list_all};
ghost use Rattle.std.specs.Str.{bytes_eq};
ghost use Rattle.boogie_grammar.specs.Tests.{number_of, some_free};
ghost use Rattle.boogie_grammar.specs.Words.{is_among, is_reserved};

use std::alloc::Global;
use std::marker::Model;
use symbol_table::{NameKey, SymbolTable};
use vb_base::{Ident, Memory, same_bytes};

/// Whether a name is reserved. Each that is has letters alone, which is tried first: most names of a translation have a `$`.
pub fn is_reserved(name: &[u8]) -> bool
    ensures { result ≡ is_reserved name.now }
{
    are_letters(name) && is_word_among(reserved_of(name.len()), name)
}

/// The reserved names of a length: those that are no names of variables or procedures.
fn reserved_of(len: usize) -> &'static [&'static [u8]]
    ensures { (name : List ℕ) → length name ≡ len → list_any (λ w. bytes_eq name w.now) result.now ≡ is_reserved name }
{
    match len {
        2 => &[b"if"],
        3 => &[b"var", b"int", b"div", b"mod", b"Ref"],
        4 => &[
            b"then", b"else", b"true", b"bool", b"real", b"null", b"Snap", b"sTag", b"sInt",
            b"sRef",
        ],
        5 => &[b"havoc", b"false", b"sUnit", b"sBool", b"sPerm", b"sPair"],
        6 => &[
            b"assume", b"assert", b"forall", b"sIntOf", b"sRefOf", b"sFirst",
        ],
        7 => &[b"sBoolOf", b"sPermOf", b"sSecond"],
        9 => &[b"procedure"],
        _ => &[],
    }
}

/// Whether each byte is a letter.
fn are_letters(bytes: &[u8]) -> bool
    ensures { result ≡ list_all is_ascii_alphabetic bytes.now }
{
    bytes.iter().all(|byte| byte.is_ascii_alphabetic())
}

/// Whether a name is one of these words.
fn is_word_among(words: &[&[u8]], name: &[u8]) -> bool
    ensures { result ≡ list_any (λ w. bytes_eq name.now w.now) words.now }
{
    words.iter().any(|word| same_bytes(name, word))
}

/// Whether one of these names is not reserved.
fn is_some_free(names: &[Ident]) -> bool
    ensures { result ≡ some_free names.now }
{
    names.iter().any(|name| !is_reserved(name.bytes()))
}

/// Names that differ, each with its number. Contracts see the list of them.
#[derive(Drop)]
pub struct BoogieNames {
    names: SymbolTable,
}

impl Model for BoogieNames {
    ghost use Rattle.std.specs.Prelude.{ℕ, List};

    ghost Value = { List (List ℕ) };

    ghost view = { λ x. x.names };
}

impl BoogieNames {
    /// No names, which are hashed by this key.
    pub fn new(alloc: Global, key: NameKey) -> BoogieNames
        ensures { result ≡ [] }
    {
        BoogieNames {
            names: SymbolTable::new(alloc, key),
        }
    }

    /// The key by which names are hashed.
    pub fn key(&self) -> NameKey {
        self.names.key()
    }

    /// The number of a name.
    pub fn number_of(&self, name: &Ident) -> Option<usize>
        ensures { result ≡ number_of name.now self.now }
    {
        self.names.number_of(name)
    }

    /// Whether a name is one of these.
    pub fn has(&self, name: &Ident) -> bool
        ensures { result ≡ is_among name.now self.now }
    {
        self.number_of(name).is_some()
    }

    /// All names, in the order of their numbers.
    pub fn all(&self) -> &[Ident]
        ensures { result.now ≡ self.now }
    {
        self.names.all()
    }

    /// Whether one of them is not reserved.
    pub fn some_free(&self) -> bool
        ensures { result ≡ some_free self.now }
    {
        is_some_free(self.names.all())
    }

    /// One name more, which is none of these.
    pub fn add(&mut self, name: Ident) -> Result<(), Memory>
        requires { is_among name self.now ≡ false }
        ensures { OnOk result (self.new ≡ self.old ++ (name ∷ [])) }
    {
        self.names.add(name)
    }
}

/// What an expression may name: the locals, and what the `forall` around binds.
#[derive(Clone, Copy)]
pub struct ExprScope<'a> {
    pub locals: &'a BoogieNames,
    /// Further names that a bound variable is not to have.
    pub others: &'a BoogieNames,
    pub bound: &'a [Ident],
}

/// The number of a name that is not reserved.
pub fn variable(names: &BoogieNames, name: &Ident) -> Option<usize>
    ensures { MatchOption result ((i : ℕ) → is_reserved name.now ≡ false → number_of name.now names.now ≡ Some i → ⊥)
        (λ i. (is_reserved name.now ≡ false) × (number_of name.now names.now ≡ Some i)) }
{
    if is_reserved(name.bytes()) {
        return None;
    }
    names.number_of(name)
}
