// How a parser stops.
ghost use Rattle.std.specs.Prelude.{◌≡◌};
ghost use Rattle.grammar.specs.declared.stop.Stop.TheVariants as stop;

use std::alloc::{AllocError, AllocFailed};
use vb_base::Memory;

/// Why nothing was read.
#[derive(Drop)]
pub enum Stop<'a, T> {
    /// Memory was refused.
    Memory,
    /// What stands in front of these tokens begins a text, but not with the first of them.
    Before(&'a [T]),
}

/// What was read, and the tokens that are left.
pub type Read<'a, T, V> = Result<(V, &'a [T]), Stop<'a, T>>;

impl<T> From<AllocError> for Stop<'_, T> {
    ghost from_gives = { λ _ e. e ≡ stop.Memory };

    fn from(_: AllocError) -> Self {
        Stop::Memory
    }
}

impl<T, U: Drop> From<AllocFailed<U>> for Stop<'_, T> {
    ghost from_gives = { λ _ e. e ≡ stop.Memory };

    fn from(_: AllocFailed<U>) -> Self {
        Stop::Memory
    }
}

impl<T> From<Memory> for Stop<'_, T> {
    ghost from_gives = { λ _ e. e ≡ stop.Memory };

    fn from(_: Memory) -> Self {
        Stop::Memory
    }
}
