// A program from its tokens.
ghost use Rattle.std.specs.Prelude.{◌≡◌, ◌⊎◌, ℕ, List, IfOk};
ghost use Rattle.vb_base.specs.Place.{IsPlace};
ghost use Rattle.viper_syntax.specs.Decl as d;
ghost use Rattle.viper_syntax.specs.View.{program_of};
ghost use Rattle.viper_syntax.specs.Good.{IsGoodSource};
ghost use Rattle.viper_syntax.specs.Lexed.{IsWellFormed};
ghost use Rattle.viper_parse.specs.Answers.{IsProgram, GoesWrong, Gives, Refuses};
ghost use Rattle.viper_grammar.specs.Spells.{Spells};

use crate::decls::declarations;
use std::alloc::Global;
use vb_base::Pos;
use viper_grammar::fault;
use viper_syntax::{ParseFault, SourceProgram, Token};

/// The program that the tokens of a file spell; `end` is the place past the file's last byte. It is the one tree
/// that the grammar has for them, and a `Syntax` comes exactly where it has none. Where the tokens are those of a
/// successful `lex`, no term of it is nested too deep, each of its names is a name and no word, and its
/// literals are within the bound. `Memory` where there is no memory.
pub fn parse(alloc: Global, tokens: &Vec<Token>, end: Pos) -> Result<SourceProgram, ParseFault>
    ensures found { IfOk result (λ p. Spells tokens.now.items (program_of p)) }
    ensures only { (p : d.SourceProgram) → Spells tokens.now.items p → Gives result p }
    ensures place { Refuses result tokens.now.items end }
    ensures good { IsWellFormed tokens.now.items → IfOk result (λ p. IsGoodSource (program_of p)) }
{
    parse_slice(alloc, tokens.as_slice(), end)
}

fn parse_slice(alloc: Global, tokens: &[Token], end: Pos) -> Result<SourceProgram, ParseFault>
    ensures found { IfOk result (λ p. Spells tokens.now (program_of p)) }
    ensures only { (p : d.SourceProgram) → Spells tokens.now p → Gives result p }
    ensures place { Refuses result tokens.now end }
    ensures good { IsWellFormed tokens.now → IfOk result (λ p. IsGoodSource (program_of p)) }
{
    match declarations(alloc, tokens) {
        Ok(decls) => Ok(SourceProgram { decls }),
        Err(stop) => Err(fault(stop, end)),
    }
}

/// A list of tokens spells at most one program.
pub fn one_tree()
    ensures { (ts : List Token) (p q : d.SourceProgram) → Spells ts p → Spells ts q → p ≡ q }
{}

/// A list of tokens goes wrong at one place at most.
pub fn one_place()
    ensures { (ts : List Token) (i j : ℕ) → IsPlace IsProgram ts i → IsPlace IsProgram ts j → i ≡ j }
{}

/// Each list of tokens spells a program, or spells none and goes wrong at a place.
pub fn some_answer()
    ensures { (ts : List Token) → IsProgram ts ⊎ GoesWrong ts }
{}
