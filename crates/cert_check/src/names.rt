// What the numbers of a certificate stand for.
use crate::words::Form;
use boogie_formula::Conditions;
use boogie_tree::BOp;
use cert_terms::{CertificateTerm, ClauseLiteral, LineFault, LineRefusal};
use std::alloc::Global;

/// How many variables and how many definitions the conditions have.
#[derive(Clone, Copy)]
pub(crate) struct NameCounts {
    variables: usize,
    definitions: usize,
}

/// The place of a number that counts from 1, below a limit.
fn place(number: i128, limit: usize) -> Result<usize, LineFault> {
    match usize::try_from(number) {
        Ok(count) if 0 < count && count <= limit => Ok(count - 1),
        _ => Err(LineFault::Refused(LineRefusal::Name)),
    }
}

/// A number that counts from 0.
pub(crate) fn count(number: i128) -> Result<usize, LineFault> {
    match usize::try_from(number) {
        Ok(count) => Ok(count),
        Err(_) => Err(LineFault::Refused(LineRefusal::Name)),
    }
}

/// The number of a step, from 0 on. Those of a certificate count from 1.
pub(crate) fn step(number: i128) -> Result<usize, LineFault> {
    place(number, usize::MAX)
}

/// The only number.
pub(crate) fn only(numbers: &[i128]) -> Result<i128, LineFault> {
    match numbers {
        [number] => Ok(*number),
        _ => Err(LineFault::Refused(LineRefusal::Count)),
    }
}

/// The only two numbers.
pub(crate) fn two(numbers: &[i128]) -> Result<(i128, i128), LineFault> {
    match numbers {
        [first, second] => Ok((*first, *second)),
        _ => Err(LineFault::Refused(LineRefusal::Count)),
    }
}

/// The only three numbers.
pub(crate) fn three(numbers: &[i128]) -> Result<(i128, i128, i128), LineFault> {
    match numbers {
        [first, second, third] => Ok((*first, *second, *third)),
        _ => Err(LineFault::Refused(LineRefusal::Count)),
    }
}

/// The first number, and those behind it.
pub(crate) fn first(numbers: &[i128]) -> Result<(i128, &[i128]), LineFault> {
    match numbers {
        [first, rest @ ..] => Ok((*first, rest)),
        [] => Err(LineFault::Refused(LineRefusal::Count)),
    }
}

impl NameCounts {
    pub(crate) fn of(conditions: &Conditions) -> NameCounts {
        NameCounts {
            variables: conditions.vars.len(),
            definitions: conditions.lets.len(),
        }
    }

    /// The name of a variable.
    fn variable(self, number: i128) -> Result<usize, LineFault> {
        place(number, self.variables)
    }

    /// The place of a definition among the definitions.
    pub(crate) fn definition(self, number: i128) -> Result<usize, LineFault> {
        place(number, self.definitions)
    }

    /// The name of a definition.
    pub(crate) fn defined(self, number: i128) -> Result<usize, LineFault> {
        let place = self.definition(number)?;
        match self.variables.checked_add(place) {
            Some(name) => Ok(name),
            None => Err(LineFault::Refused(LineRefusal::Name)),
        }
    }

    /// The name of a term of the certificate.
    pub(crate) fn name(self, number: i128) -> Result<usize, LineFault> {
        let place = step(number)?;
        let given = self.variables.saturating_add(self.definitions);
        match given.checked_add(place) {
            Some(name) => Ok(name),
            None => Err(LineFault::Refused(LineRefusal::Name)),
        }
    }

    /// A term of the certificate, or with a `-` its negation.
    pub(crate) fn literal(self, number: i128) -> Result<ClauseLiteral, LineFault> {
        if number < 0 {
            let name = self.name(number.saturating_neg())?;
            Ok(ClauseLiteral::of(name).turned())
        } else {
            Ok(ClauseLiteral::of(self.name(number)?))
        }
    }

    /// All of these terms or negations.
    pub(crate) fn literals(
        self,
        alloc: Global,
        numbers: &[i128],
    ) -> Result<Vec<ClauseLiteral>, LineFault> {
        let mut literals = Vec::with_capacity(alloc, numbers.len())?;
        for number in numbers {
            literals.push(self.literal(*number)?)?;
        }
        Ok(literals)
    }

    /// All of these terms.
    pub(crate) fn names(self, alloc: Global, numbers: &[i128]) -> Result<Vec<usize>, LineFault> {
        let mut names = Vec::with_capacity(alloc, numbers.len())?;
        for number in numbers {
            names.push(self.name(*number)?)?;
        }
        Ok(names)
    }

    fn operator(self, op: BOp, numbers: &[i128]) -> Result<CertificateTerm, LineFault> {
        let (left, right) = two(numbers)?;
        Ok(CertificateTerm::Bin(op, self.literal(left)?, self.literal(right)?))
    }

    fn one(self, numbers: &[i128]) -> Result<ClauseLiteral, LineFault> {
        self.literal(only(numbers)?)
    }

    fn choice(self, numbers: &[i128]) -> Result<CertificateTerm, LineFault> {
        let (condition, left, right) = three(numbers)?;
        Ok(CertificateTerm::If(
            self.literal(condition)?,
            self.literal(left)?,
            self.literal(right)?,
        ))
    }

    fn pair(self, numbers: &[i128]) -> Result<CertificateTerm, LineFault> {
        let (left, right) = two(numbers)?;
        Ok(CertificateTerm::Pair(self.literal(left)?, self.literal(right)?))
    }

    fn place_in(self, alloc: Global, numbers: &[i128]) -> Result<CertificateTerm, LineFault> {
        let (map, keys) = first(numbers)?;
        Ok(CertificateTerm::At(self.name(map)?, self.literals(alloc, keys)?))
    }

    fn change(self, alloc: Global, numbers: &[i128]) -> Result<CertificateTerm, LineFault> {
        match numbers {
            [map, keys @ .., value] => {
                let value = self.literal(*value)?;
                Ok(CertificateTerm::Put(self.name(*map)?, self.literals(alloc, keys)?, value))
            }
            _ => Err(LineFault::Refused(LineRefusal::Count)),
        }
    }

    /// A term without numbers.
    fn leaf(self, term: CertificateTerm, numbers: &[i128]) -> Result<CertificateTerm, LineFault> {
        if numbers.is_empty() {
            Ok(term)
        } else {
            Err(LineFault::Refused(LineRefusal::Count))
        }
    }

    /// The term of this form and these numbers.
    pub(crate) fn term(
        self,
        alloc: Global,
        form: Form,
        numbers: &[i128],
    ) -> Result<CertificateTerm, LineFault> {
        match form {
            Form::Variable => Ok(CertificateTerm::Same(self.variable(only(numbers)?)?)),
            Form::Definition => Ok(CertificateTerm::Same(self.defined(only(numbers)?)?)),
            Form::True => self.leaf(CertificateTerm::Bool(true), numbers),
            Form::Null => self.leaf(CertificateTerm::Null, numbers),
            Form::Unit => self.leaf(CertificateTerm::Unit, numbers),
            Form::Int => Ok(CertificateTerm::Int(only(numbers)?)),
            Form::Real => Ok(CertificateTerm::Real(only(numbers)?)),
            Form::SInt => Ok(CertificateTerm::SInt(self.one(numbers)?)),
            Form::SBool => Ok(CertificateTerm::SBool(self.one(numbers)?)),
            Form::SRef => Ok(CertificateTerm::SRef(self.one(numbers)?)),
            Form::SPerm => Ok(CertificateTerm::SPerm(self.one(numbers)?)),
            Form::Pair => self.pair(numbers),
            Form::Neg => Ok(CertificateTerm::Neg(self.one(numbers)?)),
            Form::ToReal => Ok(CertificateTerm::ToReal(self.one(numbers)?)),
            Form::Op(op) => self.operator(op, numbers),
            Form::If => self.choice(numbers),
            Form::At => self.place_in(alloc, numbers),
            Form::Put => self.change(alloc, numbers),
        }
    }
}
