// The commands that words ask for.
ghost use Rattle.std.specs.Prelude.{◌≡◌, map};
ghost use Rattle.std.specs.Char.{is_ascii_digit};
ghost use Rattle.std.specs.List.{list_all};
ghost use Rattle.std.specs.Option.{option_map};
ghost use Rattle.std.specs.String.{string_bytes};
ghost use Rattle.prove_tool.specs.Command.{number_in, command_of_two, command_of_three, command_for};
ghost use Rattle.prove_tool.specs.Parts.{command_of};

use crate::language::Language;

/// What the words of a call ask for. A budget that is not given is None.
#[derive(Clone, Copy)]
pub enum ProveCommand<'a> {
    /// `prove FILE [STEPS]`, `prove-boogie FILE [STEPS]`: what a search shows of the units of a file.
    Prove(Language, &'a str, Option<u64>),
    /// `certificates FILE [STEPS]`, `certificates-boogie FILE [STEPS]`: the certificates that a search finds.
    Certificates(Language, &'a str, Option<u64>),
    /// `certify FILE CERTIFICATES`, `certify-boogie FILE CERTIFICATES`: what the certificates of another file show.
    Certify(Language, &'a str, &'a str),
    /// `conditions FILE`, `conditions-boogie FILE`: the conditions of the units.
    Conditions(Language, &'a str),
    /// `values FILE [STEPS]`, `values-boogie FILE [STEPS]`: the values that a search finds, at which units fail.
    Values(Language, &'a str, Option<u64>),
}

/// The command that the words ask for, if they are one.
pub fn command_of(words: &[String]) -> Option<ProveCommand>
    ensures { option_map command_of result ≡ command_for (map string_bytes words.now) }
{
    match words {
        [word, file] => command_of_two(word.as_str(), file.as_str()),
        [word, file, third] => command_of_three(word.as_str(), file.as_str(), third.as_str()),
        _ => None,
    }
}

/// The command that two words ask for, if they are one.
fn command_of_two<'a>(word: &str, file: &'a str) -> Option<ProveCommand<'a>>
    ensures { option_map command_of result ≡ command_of_two word.now file.now }
{
    if word == "prove" {
        Some(ProveCommand::Prove(Language::Viper, file, None))
    } else if word == "certificates" {
        Some(ProveCommand::Certificates(Language::Viper, file, None))
    } else if word == "conditions" {
        Some(ProveCommand::Conditions(Language::Viper, file))
    } else if word == "values" {
        Some(ProveCommand::Values(Language::Viper, file, None))
    } else if word == "prove-boogie" {
        Some(ProveCommand::Prove(Language::Boogie, file, None))
    } else if word == "certificates-boogie" {
        Some(ProveCommand::Certificates(Language::Boogie, file, None))
    } else if word == "conditions-boogie" {
        Some(ProveCommand::Conditions(Language::Boogie, file))
    } else if word == "values-boogie" {
        Some(ProveCommand::Values(Language::Boogie, file, None))
    } else {
        None
    }
}

/// The command that three words ask for, if they are one.
fn command_of_three<'a>(word: &str, file: &'a str, third: &'a str) -> Option<ProveCommand<'a>>
    ensures { option_map command_of result ≡ command_of_three word.now file.now third.now }
{
    if word == "certify" {
        return Some(ProveCommand::Certify(Language::Viper, file, third));
    }
    if word == "certify-boogie" {
        return Some(ProveCommand::Certify(Language::Boogie, file, third));
    }
    let Some(steps) = number_in(third) else {
        return None;
    };
    if word == "prove" {
        Some(ProveCommand::Prove(Language::Viper, file, Some(steps)))
    } else if word == "certificates" {
        Some(ProveCommand::Certificates(Language::Viper, file, Some(steps)))
    } else if word == "values" {
        Some(ProveCommand::Values(Language::Viper, file, Some(steps)))
    } else if word == "prove-boogie" {
        Some(ProveCommand::Prove(Language::Boogie, file, Some(steps)))
    } else if word == "certificates-boogie" {
        Some(ProveCommand::Certificates(Language::Boogie, file, Some(steps)))
    } else if word == "values-boogie" {
        Some(ProveCommand::Values(Language::Boogie, file, Some(steps)))
    } else {
        None
    }
}

/// The most digits of a number.
const MOST_DIGITS: usize = 18;

/// The number that a word is, if it is one to eighteen digits.
fn number_in(word: &str) -> Option<u64>
    ensures { result ≡ number_in word.now }
{
    if 1 <= word.len() && word.len() <= MOST_DIGITS && are_digits(word.as_bytes()) {
        word.parse::<u64>().ok()
    } else {
        None
    }
}

fn are_digits(bytes: &[u8]) -> bool
    ensures { result ≡ list_all is_ascii_digit bytes.now }
{
    bytes.iter().all(|b| b.is_ascii_digit())
}
