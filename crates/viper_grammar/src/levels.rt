// The levels of binary operators.
ghost use Rattle.std.specs.Prelude.{◌≡◌};
ghost use Rattle.viper_grammar.specs.Grammar as g;

/// The level of the right side of an operator of level n: the next tighter one, or the same where operators of
/// level n group to the right.
pub fn right_level(n: u32) -> u32
    ensures { result ≡ g.right_level n }
{
    if n < 4 { n.saturating_sub(1) } else { n }
}

/// Whether operators of level n group to the left, so that one more may follow.
pub fn repeats(n: u32) -> bool
    ensures { result ≡ g.repeats n }
{
    n < 3
}
