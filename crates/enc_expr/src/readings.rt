// Where and under what a part is read, as a reading borrows it.
ghost use Rattle.std.specs.Prelude.{◌≡◌, Some, None};
ghost use Rattle.enc_expr.specs.Kinds as k;
ghost use Rattle.enc_expr.specs.Place as p;
ghost use Rattle.enc_expr.specs.Pieces as piece;
ghost use Rattle.enc_expr.specs.View.{kinds_of, place_in};
ghost use Rattle.moves.specs.Scalars as s;

use crate::places::{Maps, Place};
use boogie_tree::BBase;
use vb_base::{Kind, Label, Pos};
use vb_value::{Layout, Ty};

/// The types of the variables that a part can name, and those of the program's fields and predicates.
#[derive(Clone, Copy)]
pub struct Kinds<'a> {
    pub vars: &'a [Ty],
    pub layout: &'a Layout,
}

impl<'a> Kinds<'a> {
    /// The base type of a variable.
    pub fn variable(self, number: u32) -> BBase
        ensures { result ≡ s.base_for (k.type_at (kinds_of self.entry).vars number) }
    {
        base_for(type_at(self.vars, number))
    }

    /// The type of a field.
    pub fn field(self, number: u32) -> Ty
        ensures { result ≡ k.type_at (kinds_of self.entry).layout.fields number }
    {
        let layout = self.layout;
        type_at(&layout.fields, number)
    }

    /// The same program, where the parameters of a predicate are the variables.
    pub fn in_body(self, predicate: u32) -> Kinds<'a>
        ensures { kinds_of result ≡ k.body_kinds (kinds_of self.entry) predicate }
    {
        let layout = self.layout;
        let vars = match layout.keys.get(predicate as usize) {
            Some(types) => types.as_slice(),
            None => &[],
        };
        Kinds { vars, ..self }
    }
}

/// A permission is a real.
pub fn base_for(ty: Ty) -> BBase
    ensures { result ≡ s.base_for ty }
{
    match ty {
        Ty::Int => BBase::Int,
        Ty::Bool => BBase::Bool,
        Ty::Ref => BBase::Ref,
        Ty::Perm => BBase::Real,
    }
}

fn type_at(types: &[Ty], number: u32) -> Ty
    ensures { result ≡ k.type_at types.now number }
{
    types.get(number as usize).copied().unwrap_or(Ty::Int)
}

/// The local of a field, predicate or variable.
pub fn number(locals: &[usize], index: u32) -> usize
    ensures { result ≡ p.number locals.now index }
{
    local_at(locals, index as usize)
}

/// The same by an index of the machine.
pub fn local_at(locals: &[usize], index: usize) -> usize
    ensures { result ≡ p.number locals.now index }
{
    locals.get(index).copied().unwrap_or(0)
}

/// Where a part is read, and the guard under which it counts.
#[derive(Clone, Copy)]
pub struct Reading<'a> {
    pub kinds: Kinds<'a>,
    /// The local of each variable that the part can name.
    pub vars: &'a [usize],
    /// The present state.
    pub now: &'a Maps,
    /// The old state.
    pub old: &'a Maps,
    /// The step that is running.
    pub at: Pos,
    /// The local that is true where the part counts, if it does not always.
    pub guard: Option<usize>,
}

impl<'a> Reading<'a> {
    /// At a place, where the part always counts.
    pub fn of(kinds: Kinds<'a>, place: &'a Place) -> Reading<'a>
        ensures kinds { kinds_of result.kinds ≡ kinds_of kinds.entry }
        ensures place { place_in result ≡ p.place_of place.entry.now }
        ensures guard { result.guard ≡ None }
    {
        Reading {
            kinds,
            vars: &place.vars,
            now: &place.now,
            old: &place.old,
            at: place.at,
            guard: None,
        }
    }

    /// Under another guard.
    pub fn under(self, guard: usize) -> Reading<'a>
        ensures kinds { kinds_of result.kinds ≡ kinds_of self.entry.kinds }
        ensures place { place_in result ≡ place_in self.entry }
        ensures guard { result.guard ≡ Some guard }
    {
        Reading {
            guard: Some(guard),
            ..self
        }
    }

    /// With another present state.
    pub fn with_now(self, now: &'a Maps) -> Reading<'a>
        ensures kinds { kinds_of result.kinds ≡ kinds_of self.entry.kinds }
        ensures place { place_in result ≡ p.with_now (p.maps_of now.entry.now) (place_in self.entry) }
        ensures guard { result.guard ≡ self.entry.guard }
    {
        Reading { now, ..self }
    }

    /// In the body of a predicate, whose parameters are these locals.
    pub fn in_body(self, predicate: u32, vars: &'a [usize]) -> Reading<'a>
        ensures kinds { kinds_of result.kinds ≡ k.body_kinds (kinds_of self.entry.kinds) predicate }
        ensures place { place_in result ≡ p.with_vars vars.entry.now (place_in self.entry) }
        ensures guard { result.guard ≡ self.entry.guard }
    {
        Reading {
            kinds: self.kinds.in_body(predicate),
            vars,
            ..self
        }
    }

    /// The label of a check of a part.
    pub fn label(self, part: Pos, kind: Kind) -> Label
        ensures { result ≡ piece.label (place_in self.entry) part kind }
    {
        Label {
            at: self.at,
            part,
            kind,
        }
    }
}
