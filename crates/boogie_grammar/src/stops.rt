// Where a list of tokens goes wrong.
ghost use Rattle.std.specs.Prelude.{◌≡◌};
ghost use Rattle.boogie_grammar.specs.Faults.{place_at, fault_of};

use crate::{BoogieFault, PlacedLexeme};
use grammar::Stop;
use vb_base::Pos;

/// The fault that a stop is, where the tokens end at this place.
pub fn fault(stop: Stop<'_, PlacedLexeme>, end: Pos) -> BoogieFault
    ensures { result ≡ fault_of stop.entry end }
{
    match stop {
        Stop::Memory => BoogieFault::Memory,
        Stop::Before(rest) => BoogieFault::Syntax(place_of(rest, end)),
    }
}

/// The place of the next token, or the end.
fn place_of(tokens: &[PlacedLexeme], end: Pos) -> Pos
    ensures { result ≡ place_at tokens.now 0 end }
{
    match tokens.first() {
        Some(token) => token.pos,
        None => end,
    }
}
