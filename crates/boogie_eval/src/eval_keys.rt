// Keys, and whether a set has all the keys of a type.
#![tactic(auto, using(crate::specs::Answers::is, crate::specs::Answers::over, crate::specs::Answers::wrong, crate::specs::Answers::no_memory))]

ghost use Rattle.std.specs.Prelude.{◌≡◌, ◌++◌, ◌∷◌, [], Bool, not, IfOk};
ghost use Rattle.std.specs.List.{list_all};
ghost use Rattle.sparse.specs.Map.{borrowed, keys};
ghost use Rattle.boogie_meaning.specs.Decided as d;
ghost use Rattle.boogie_meaning.specs.Ends.{End};
ghost use Rattle.boogie_eval.specs.Answers.{Answers};
ghost use Rattle.boogie_eval.specs.Searched.{IsSet, is_bool, outnumbers};

use crate::eval_ends::Miss;
use crate::eval_sets::{KeySet, has, set_of};
use boogie_tree::{BBase, are_keys};
use std::alloc::Global;
use vb_base::Memory;
use vb_value::{Key, KeyPart};

/// The key with one more part.
fn extended(alloc: Global, front: &Key, part: KeyPart) -> Result<Key, Memory>
    ensures { IfOk result (λ k. k ≡ front.now ++ part ∷ []) }
{
    let mut parts = Vec::with_capacity(alloc, front.parts().len() + 1)?;
    parts.extend_from_slice(front.parts())?;
    parts.push(part)?;
    Ok(Key::new(parts))
}

/// Whether a key that begins so and continues with these types is not in the set. No more keys are tried than the set has, and one.
fn has_other_from(alloc: Global, front: &Key, bases: &[BBase], set: &KeySet) -> Result<bool, Memory>
    requires { IsSet set.now }
    ensures { IfOk result (λ p. p ≡ d.finds bases.now (λ k. not (d.is_listed (keys set.now) (front.now ++ k)))) }
{
    let Some((first, rest)) = bases.split_first() else {
        return Ok(!has(set, front));
    };
    match first {
        BBase::Int => Ok(are_keys(rest)),
        BBase::Bool => {
            let lower = extended(alloc, front, KeyPart::Bool(false))?;
            if has_other_from(alloc, &lower, rest, set)? {
                return Ok(true);
            }
            let upper = extended(alloc, front, KeyPart::Bool(true))?;
            has_other_from(alloc, &upper, rest, set)
        }
        BBase::Ref => Ok(are_keys(rest)),
        BBase::Real => Ok(false),
        BBase::Snap => Ok(false),
    }
}

/// Whether the choices of the bools among these types are more than so many.
fn outnumbers(bases: &[BBase], count: usize) -> bool
    ensures { result ≡ outnumbers bases.now count }
{
    let mut left = count;
    for base in bases {
        if *base == BBase::Bool {
            left /= 2;
        }
    }
    left == 0
}

/// Whether all of these types are bool.
fn are_bools(bases: &[BBase]) -> bool
    ensures { result ≡ list_all is_bool bases.now }
{
    for base in bases {
        if *base != BBase::Bool {
            return false;
        }
    }
    true
}

/// Whether a key of these types is none of the list.
pub(crate) fn has_other(alloc: Global, bases: &[BBase], list: &[&Key]) -> Result<bool, Memory>
    ensures { IfOk result (λ p. p ≡ d.has_other bases.now (borrowed list.now)) }
{
    if !are_bools(bases) {
        return Ok(are_keys(bases));
    }
    if outnumbers(bases, list.len()) {
        return Ok(true);
    }
    // So there are no more bools, and the calls are no deeper, than a logarithm of the list's length.
    let set = set_of(alloc, list)?;
    let front = Key::new(Vec::new(alloc));
    has_other_from(alloc, &front, bases, &set)
}

/// Of two ends of truths the first in the order Over, Wrong, false, true.
pub(crate) fn worse(left: Result<bool, Miss>, right: Result<bool, Miss>) -> Result<bool, Miss>
    ensures { (e : End Bool) (f : End Bool) → Answers (λ p. p) e left → Answers (λ p. p) f right → Answers (λ p. p) (d.worst e f) result }
{
    match (left, right) {
        (Err(Miss::Memory), _) => Err(Miss::Memory),
        (_, Err(Miss::Memory)) => Err(Miss::Memory),
        (Err(Miss::Over), _) => Err(Miss::Over),
        (_, Err(Miss::Over)) => Err(Miss::Over),
        (Err(Miss::Wrong), _) => Err(Miss::Wrong),
        (_, Err(Miss::Wrong)) => Err(Miss::Wrong),
        (Ok(p), Ok(q)) => Ok(p && q),
    }
}
