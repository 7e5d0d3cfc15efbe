// Where a list of tokens goes wrong.
ghost use Rattle.std.specs.Prelude.{◌≡◌};
ghost use Rattle.viper_grammar.specs.Stops.{place_at, fault_of};

use grammar::Stop;
use vb_base::Pos;
use viper_syntax::{ParseFault, Token};

/// The fault that a stop is, where the tokens end at this place.
pub fn fault(stop: Stop<'_, Token>, end: Pos) -> ParseFault
    ensures { result ≡ fault_of stop.entry end }
{
    match stop {
        Stop::Memory => ParseFault::Memory,
        Stop::Before(rest) => ParseFault::Syntax(place_of(rest, end)),
    }
}

/// The place of the next token, or the end.
fn place_of(tokens: &[Token], end: Pos) -> Pos
    ensures { result ≡ place_at tokens.now 0 end }
{
    match tokens.first() {
        Some(token) => token.pos,
        None => end,
    }
}
