// The limits that a list of tokens keeps.
ghost use Rattle.std.specs.Prelude.{◌≡◌, ◌↔◌, IsTrue, MatchOption, ◌<◌, ◌^◌};
ghost use Rattle.vb_base.specs.Limits.{max_unclosed_braces, max_group_tokens};
ghost use Rattle.viper_syntax.specs.Limit.{KeepsLimits, BreaksLimit, StaysWithin, IsFirstAbove, unclosed, unclosed_with, in_group, refused, is_divider, is_refused};

use crate::words::is_refused_word;
use crate::{LexFault, Sign, Tok, Token, Word};
use vb_base::Pos;
use vb_base::limits::{MAX_GROUP_TOKENS, MAX_UNCLOSED_BRACES};

/// The first limit that the tokens break, if any: that on braces, that on groups, no refused word.
pub(crate) fn broken_limit(tokens: &[Token]) -> Option<LexFault>
    ensures { MatchOption result (KeepsLimits tokens.now) (BreaksLimit tokens.now) }
{
    if keeps_limits(tokens) {
        None
    } else if let Some(at) = first_deep_brace(tokens) {
        Some(LexFault::Braces(at))
    } else if let Some(at) = first_long_group(tokens) {
        Some(LexFault::LongGroup(at))
    } else if let Some(at) = first_refused_word(tokens) {
        Some(LexFault::Unsupported(at))
    } else {
        None
    }
}

/// Whether tokens keep the limits. One pass tells it, and most texts need no other.
fn keeps_limits(tokens: &[Token]) -> bool
    ensures { IsTrue result ↔ KeepsLimits tokens.now }
{
    let mut braces: usize = 0;
    let mut group: usize = 0;
    for token in tokens {
        braces = unclosed_with(braces, &token.tok);
        group = if is_divider(&token.tok) { 0 } else { group + 1 };
        if braces > MAX_UNCLOSED_BRACES || group > MAX_GROUP_TOKENS || is_refused(&token.tok) {
            return false;
        }
    }
    true
}

/// The place of the first `{` that is one too many, if any.
fn first_deep_brace(tokens: &[Token]) -> Option<Pos>
    ensures { MatchOption result (StaysWithin unclosed max_unclosed_braces tokens.now) (IsFirstAbove unclosed max_unclosed_braces tokens.now) }
{
    let mut count: usize = 0;
    for token in tokens {
        count = unclosed_with(count, &token.tok);
        if count > MAX_UNCLOSED_BRACES {
            return Some(token.pos);
        }
    }
    None
}

/// The place of the first token that is one too many in its group, if any.
fn first_long_group(tokens: &[Token]) -> Option<Pos>
    ensures { MatchOption result (StaysWithin in_group max_group_tokens tokens.now) (IsFirstAbove in_group max_group_tokens tokens.now) }
{
    let mut count: usize = 0;
    for token in tokens {
        count = if is_divider(&token.tok) { 0 } else { count + 1 };
        if count > MAX_GROUP_TOKENS {
            return Some(token.pos);
        }
    }
    None
}

/// The place of the first refused word, if any.
fn first_refused_word(tokens: &[Token]) -> Option<Pos>
    ensures { MatchOption result (StaysWithin refused 0 tokens.now) (IsFirstAbove refused 0 tokens.now) }
{
    for word in tokens {
        if is_refused(&word.tok) {
            return Some(word.pos);
        }
    }
    None
}

/// How many `{` are unclosed after one more token.
fn unclosed_with(count: usize, tok: &Tok) -> usize
    requires { count < 2 ^ 32 }
    ensures { result ≡ unclosed_with count tok.now }
{
    match tok {
        Tok::Sign(Sign::OpenBrace) => count + 1,
        Tok::Sign(Sign::CloseBrace) => count.saturating_sub(1),
        _ => count,
    }
}

/// Whether a token stands between two groups.
fn is_divider(tok: &Tok) -> bool
    ensures { result ≡ is_divider tok.now }
{
    match tok {
        Tok::Name(_) | Tok::Number(_) => false,
        Tok::Word(word) => matches!(
            word,
            Word::Field
                | Word::Predicate
                | Word::Method
                | Word::Returns
                | Word::Requires
                | Word::Ensures
                | Word::Invariant
                | Word::Var
                | Word::If
                | Word::Elseif
                | Word::Else
                | Word::While
                | Word::Inhale
                | Word::Exhale
                | Word::Assert
                | Word::Assume
                | Word::Fold
                | Word::Unfold
        ),
        Tok::Sign(sign) => {
            matches!(
                sign,
                Sign::OpenBrace | Sign::CloseBrace | Sign::Semicolon | Sign::Assign
            )
        }
    }
}

/// Whether a token is a refused word.
fn is_refused(tok: &Tok) -> bool
    ensures { result ≡ is_refused tok.now }
{
    match tok {
        Tok::Name(name) => is_refused_word(name.bytes()),
        _ => false,
    }
}
