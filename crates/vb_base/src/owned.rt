// Owned values over a step that may fail. Each is dropped here, where nothing is known of its type, so that a proof of
// a caller does not go through the drop of a whole tree at each of its exits.
ghost use Rattle.std.specs.Prelude.{◌≡◌, ◌++◌, ◌∷◌, [], IfOk};
ghost use Rattle.std.specs.Result.{result_map_both};

use crate::Memory;
use std::alloc::{AllocFailed, Global};

/// What was done, and with it the value that is kept; where it failed, its error.
pub fn kept<T: Drop, D, E>(done: Result<D, E>, value: T) -> Result<(D, T), E>
    ensures { result ≡ result_map_both (λ d. (d, value)) (λ e. e) done }
{
    match done {
        Ok(done) => Ok((done, value)),
        Err(error) => Err(error),
    }
}

/// The value in a box.
pub fn boxed<T: Drop>(alloc: Global, value: T) -> Result<Box<T>, Memory>
    ensures { IfOk result (λ b. b.value ≡ value) }
{
    Ok(Box::new(alloc, value)?)
}

/// Both values, each in a box.
pub fn boxed_pair<A: Drop, B: Drop>(
    alloc: Global,
    first: A,
    second: B,
) -> Result<(Box<A>, Box<B>), Memory>
    ensures { IfOk result (λ r. (r.0.value ≡ first) × (r.1.value ≡ second)) }
{
    let first = Box::new(alloc, first)?;
    let second = Box::new(alloc, second)?;
    Ok((first, second))
}

/// The list with one more item. The first takes room for itself alone, since most lists have one.
pub fn pushed<T: Drop>(mut all: Vec<T>, item: T) -> Result<Vec<T>, AllocFailed<T>>
    ensures { IfOk result (λ v. v.items ≡ all.items ++ (item ∷ [])) }
{
    if all.is_empty() {
        // Where this is refused, the push asks for room itself.
        let _refused = all.reserve_exact(1);
    }
    all.push(item)?;
    Ok(all)
}
