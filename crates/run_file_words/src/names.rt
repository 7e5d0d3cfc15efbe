// Names that the lines of a run file may name.
ghost use Rattle.std.specs.Prelude.{◌≡◌, List, IfOk};
ghost use Rattle.std.specs.Option.{option_map};
ghost use Rattle.vb_base.specs.Names.{NamesDiffer};
ghost use Rattle.run_file_words.specs.Reading.{number_of, numbered_name};
ghost use Rattle.run_file_words.specs.Text.{words_of};

use crate::texts::next_word;
use std::alloc::Global;
use std::marker::Model;
use symbol_table::{Digest, NameKey, SymbolTable};
use vb_base::{Ident, Memory};

/// Names that differ, each with its number. Contracts see the list of them.
#[derive(Drop)]
pub struct RunFileNames {
    names: SymbolTable,
}

impl Model for RunFileNames {
    ghost use Rattle.std.specs.Prelude.{ℕ, List};

    ghost Value = { List (List ℕ) };

    ghost view = { λ x. x.names };
}

impl RunFileNames {
    /// The names in order.
    pub fn of(alloc: Global, names: &[Ident]) -> Result<RunFileNames, Memory>
        requires { NamesDiffer names.now }
        ensures { IfOk result (λ x. x ≡ names.now) }
    {
        let mut known = SymbolTable::new(alloc, key_of(names));
        for name in names {
            known.add(name.copy()?)?;
        }
        Ok(RunFileNames { names: known })
    }

    /// The names of a table.
    pub fn of_table(names: SymbolTable) -> RunFileNames
        ensures { result ≡ names }
    {
        RunFileNames { names }
    }

    /// The number of a name.
    pub fn number_of(&self, word: &[u8]) -> Option<usize>
        ensures { result ≡ number_of self.now word.now }
    {
        self.names.number_of_bytes(word)
    }
}

/// A key that comes of all these names.
fn key_of(names: &[Ident]) -> NameKey {
    let mut digest = Digest::new();
    for name in names {
        digest.add(name.bytes());
    }
    digest.key()
}

/// The name with which the words of a line begin, as its number, and the rest of the line.
pub fn numbered<'a>(names: &RunFileNames, words: &'a [u8]) -> Option<(usize, &'a [u8])>
    ensures { option_map (λ x. (x.0, words_of x.1.now)) result ≡ numbered_name names.now (words_of words.now) }
{
    let (name, rest) = next_word(words)?;
    Some((names.number_of(name)?, rest))
}
