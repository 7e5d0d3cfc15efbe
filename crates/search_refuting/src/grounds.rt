// What literals follow from.
ghost use Rattle.std.specs.Prelude.{◌≤◌};

use search_base::{Fuel, SearchStop, SignedTerm, StepId, copied, get};
use search_state::{Prover, Said};
use std::collections::BTreeSet;

/// All literals from which some follow.
#[derive(Drop)]
pub(crate) struct Origins {
    /// Those that follow from others, in the order in which they were assigned.
    pub(crate) order: Vec<SignedTerm>,
    /// Those that were decided.
    pub(crate) assumed: Vec<SignedTerm>,
}

/// The step that the value of a literal follows from, or none.
pub(crate) fn reason_of(prover: &Prover, literal: SignedTerm) -> StepId {
    prover.values.reason(literal).unwrap_or(StepId::NONE)
}

/// The literals that a step has a literal follow from.
pub(crate) fn grounds(
    prover: &Prover,
    step: StepId,
    literal: SignedTerm,
) -> Result<Vec<SignedTerm>, SearchStop> {
    let mut found = Vec::new(prover.alloc);
    for it in prover.steps.literals(step) {
        if *it != literal {
            found.push(it.negated())?;
        }
    }
    Ok(found)
}

/// What is met on the way back from literals.
#[derive(Drop)]
struct Walk {
    todo: Vec<SignedTerm>,
    order: Vec<(u32, SignedTerm)>,
    assumed: BTreeSet<SignedTerm>,
}

/// All literals from which some follow, up to those that are known where the top is true.
pub(crate) fn trace(
    prover: &Prover,
    top: SignedTerm,
    literals: &[SignedTerm],
    fuel: &mut Fuel,
) -> Result<Origins, SearchStop>
    ensures { fuel.new.left ≤ fuel.old.left }
{
    let mut seen = BTreeSet::new(prover.alloc);
    let mut walk = Walk {
        todo: copied(prover.alloc, literals)?,
        order: Vec::new(prover.alloc),
        assumed: BTreeSet::new(prover.alloc),
    };
    while let Some(it) = walk.todo.pop() {
        fuel.take(1)?;
        if seen.insert(it)? && !is_implied(prover, top, it) {
            walk.meet(prover, top, it)?;
        }
    }
    walk.ended(prover)
}

impl Walk {
    /// Takes a literal, and puts those that it follows from to do.
    fn meet(
        &mut self,
        prover: &Prover,
        top: SignedTerm,
        literal: SignedTerm,
    ) -> Result<(), SearchStop> {
        let place = place_of(prover, literal);
        if let Some(said) = said_here(prover, top, place, literal) {
            self.todo.push(place)?;
            self.todo.extend_from_slice(&said.assumed)?;
            return Ok(());
        }
        match prover.values.reason(literal) {
            None => {
                self.assumed.insert(literal)?;
            }
            Some(reason) => {
                self.order.push((prover.values.place(literal), literal))?;
                self.todo
                    .extend_from_slice(&grounds(prover, reason, literal)?)?;
            }
        }
        Ok(())
    }

    /// What was met.
    fn ended(self, prover: &Prover) -> Result<Origins, SearchStop> {
        let Walk {
            todo: _,
            order: mut met,
            assumed,
        } = self;
        met.sort_unstable();
        let mut order = Vec::with_capacity(prover.alloc, met.len())?;
        for (_, literal) in &met {
            order.push(*literal)?;
        }
        let assumed = assumed.iter().copied().collect(prover.alloc)?;
        Ok(Origins { order, assumed })
    }
}

/// Whether a literal is true where the top is, by what stands on the way to it or whatever is decided.
pub(crate) fn is_implied(prover: &Prover, top: SignedTerm, literal: SignedTerm) -> bool {
    if literal == top
        || prover.paths.is_before(top, literal, &prover.terms)
        || is_fixed(prover, literal)
    {
        return true;
    }
    match prover.paths.owner(literal) {
        Some(owner) => prover.paths.is_before(top, owner, &prover.terms),
        None => false,
    }
}

/// Whether a literal has its value whatever is decided.
pub(crate) fn is_fixed(prover: &Prover, literal: SignedTerm) -> bool {
    !prover.values.is_open(literal) && prover.values.level(literal) == 0
}

/// The place of the level at which a literal was assigned, where there is one and it is another literal; or none.
pub(crate) fn place_of(prover: &Prover, literal: SignedTerm) -> SignedTerm {
    let level = prover.values.level(literal) as usize;
    if level == 0 {
        return SignedTerm::NONE;
    }
    let place = get(&prover.bases, level - 1);
    if place == literal {
        SignedTerm::NONE
    } else {
        place
    }
}

/// What was said of a literal at a place, where what it assumes is decided, or true where the top is.
pub(crate) fn said_here(
    prover: &Prover,
    top: SignedTerm,
    place: SignedTerm,
    literal: SignedTerm,
) -> Option<&Said> {
    let found = prover.said.get(&(place, literal))?;
    for it in &found.assumed {
        if !prover.values.is_decided(*it) && !is_implied(prover, top, *it) {
            return None;
        }
    }
    Some(found)
}
