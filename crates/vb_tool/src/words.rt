// The commands that words ask for.
ghost use Rattle.std.specs.Prelude.{◌≡◌, ◌++◌, ℕ, codes, length, map, IfOk, MatchOption};
ghost use Rattle.std.specs.Char.{is_ascii_digit};
ghost use Rattle.std.specs.List.{list_all};
ghost use Rattle.std.specs.String.{string_bytes};
ghost use Rattle.vb_base.specs.Labels.{Spells};
ghost use Rattle.vb_base.specs.declared.labels.Label.{Label as LabelOf};
ghost use Rattle.vb_tool.specs.Command.{IsNumber, Asks, IsNoCommand};
ghost use Rattle.vb_tool.specs.Parts.{command_of};

use std::alloc::Global;
use vb_base::{Label, Memory, read_label};

/// What the words of a call ask for.
#[derive(Clone, Copy)]
pub enum Command<'a> {
    /// `translate FILE`: the translation of a file.
    Translate(&'a str),
    /// `run FILE UNIT RUNFILE`: a unit of a file, run as another file says.
    Run(&'a str, &'a str, &'a str),
    /// `replay BPL BRUN`: a procedure of a file of Boogie, run as another file says.
    Replay(&'a str, &'a str),
    /// `make N`: a generated program of so many methods, and its translation.
    Make(u32),
    /// `exec FILE METHOD RUNFILE N`: a method of a file, executed as another file says, with a budget.
    Execute(&'a str, &'a str, &'a str, u32),
    /// `cut BPL`: the program of Boogie without loops and calls that is written for a file with them.
    Cut(&'a str),
    /// `vc BPL PROC AT PART KIND`: the formula that says that a procedure of a file of Boogie has no failing run at a label.
    Condition(&'a str, &'a str, Label),
}

/// The command that the words ask for, if they are one.
pub fn command_of(alloc: Global, words: &[String]) -> Result<Option<Command>, Memory>
    ensures { IfOk result (λ found. MatchOption found (IsNoCommand (map string_bytes words.now)) (λ c. Asks (map string_bytes words.now) (command_of c))) }
{
    match words.len() {
        5 => Ok(execution_of(words)),
        6 => condition_of(alloc, words),
        _ => Ok(short_command_of(words)),
    }
}

/// The command that five words ask for.
fn execution_of(words: &[String]) -> Option<Command>
    requires { length words.now ≡ 5 }
    ensures { MatchOption result (IsNoCommand (map string_bytes words.now)) (λ c. Asks (map string_bytes words.now) (command_of c)) }
{
    match words {
        [word, file, method, run_file, number] if word.as_str() == "exec" => {
            match number_of(number.as_str()) {
                Some(budget) => Some(Command::Execute(
                    file.as_str(),
                    method.as_str(),
                    run_file.as_str(),
                    budget,
                )),
                None => None,
            }
        }
        _ => None,
    }
}

/// The command that six words ask for.
fn condition_of(alloc: Global, words: &[String]) -> Result<Option<Command>, Memory>
    requires { length words.now ≡ 6 }
    ensures { IfOk result (λ found. MatchOption found (IsNoCommand (map string_bytes words.now)) (λ c. Asks (map string_bytes words.now) (command_of c))) }
{
    match words {
        [word, file, procedure, at, part, kind] if word.as_str() == "vc" => {
            match label_of(alloc, at.as_str(), part.as_str(), kind.as_str())? {
                Some(label) => Ok(Some(Command::Condition(
                    file.as_str(),
                    procedure.as_str(),
                    label,
                ))),
                None => Ok(None),
            }
        }
        _ => Ok(None),
    }
}

/// The label that three words are, if they are one.
fn label_of(alloc: Global, at: &str, part: &str, kind: &str) -> Result<Option<Label>, Memory>
    ensures { IfOk result (λ found. MatchOption found ((l : LabelOf) → Spells (at.now ++ codes " " ++ part.now ++ codes " " ++ kind.now) l → ⊥)
        (Spells (at.now ++ codes " " ++ part.now ++ codes " " ++ kind.now))) }
{
    let text = joined(alloc, at.as_bytes(), part.as_bytes(), kind.as_bytes())?;
    Ok(read_label(&text))
}

/// Three words with blanks between them.
fn joined(alloc: Global, first: &[u8], second: &[u8], third: &[u8]) -> Result<Vec<u8>, Memory>
    ensures { IfOk result (λ text. text.items ≡ first.now ++ codes " " ++ second.now ++ codes " " ++ third.now) }
{
    let mut text = Vec::new(alloc);
    text.extend_from_slice(first)?;
    text.push(b' ')?;
    text.extend_from_slice(second)?;
    text.push(b' ')?;
    text.extend_from_slice(third)?;
    Ok(text)
}

/// The command that the words ask for, which are neither five nor six.
fn short_command_of(words: &[String]) -> Option<Command>
    requires not_five { length words.now ≡ 5 → ⊥ }
    requires not_six { length words.now ≡ 6 → ⊥ }
    ensures { MatchOption result (IsNoCommand (map string_bytes words.now)) (λ c. Asks (map string_bytes words.now) (command_of c)) }
{
    match words {
        [word, file] if word.as_str() == "translate" => Some(Command::Translate(file.as_str())),
        [word, file, unit, run_file] if word.as_str() == "run" => Some(Command::Run(
            file.as_str(),
            unit.as_str(),
            run_file.as_str(),
        )),
        [word, file, run_file] if word.as_str() == "replay" => {
            Some(Command::Replay(file.as_str(), run_file.as_str()))
        }
        [word, file] if word.as_str() == "cut" => Some(Command::Cut(file.as_str())),
        [word, number] if word.as_str() == "make" => match number_of(number.as_str()) {
            Some(count) => Some(Command::Make(count)),
            None => None,
        },
        _ => None,
    }
}

/// The most digits of a number.
const MOST_DIGITS: usize = 9;

/// The number that a word is, if it is one to nine digits.
fn number_of(word: &str) -> Option<u32>
    ensures { MatchOption result ((n : ℕ) → IsNumber word.now n → ⊥) (λ n. IsNumber word.now n) }
{
    if word.len() <= MOST_DIGITS && are_digits(word.as_bytes()) {
        word.parse::<u32>().ok()
    } else {
        None
    }
}

fn are_digits(bytes: &[u8]) -> bool
    ensures { result ≡ list_all is_ascii_digit bytes.now }
{
    bytes.iter().all(|b| b.is_ascii_digit())
}
