// The lines of a certificate.
use crate::needed::{needed_steps, needed_terms};
use crate::words::{Word, Words};
use digits::Digits;
use search_base::{SearchStop, SignedTerm, StepId, TermId, get, number, set};
use search_steps::Steps;
use search_terms::{Problem, TermOp, Terms};
use std::alloc::Global;

/// A certificate that is written.
#[derive(Drop)]
struct Writer<'a> {
    terms: &'a Terms,
    steps: &'a Steps,
    text: Vec<u8>,
    /// The number of each term and of each step that is written, by its place; 0 of one that is not.
    term_numbers: Vec<u32>,
    step_numbers: Vec<u32>,
}

impl Writer<'_> {
    /// Writes a word.
    fn put(&mut self, word: &[u8]) -> Result<(), SearchStop> {
        self.text.extend_from_slice(word)?;
        Ok(())
    }

    /// Writes a blank and a number.
    fn put_number(&mut self, value: i128) -> Result<(), SearchStop> {
        self.put(b" ")?;
        self.put(Digits::of_signed(value).bytes())
    }

    /// Writes a blank and a term or a literal.
    fn put_literal(&mut self, literal: SignedTerm) -> Result<(), SearchStop> {
        let value = i128::from(get(&self.term_numbers, literal.term().place()));
        if literal.is_negated() {
            self.put_number(-value)
        } else {
            self.put_number(value)
        }
    }

    /// Writes a blank and a word of a step.
    fn put_word(&mut self, word: Word) -> Result<(), SearchStop> {
        match word {
            Word::Number(value) => self.put_number(i128::from(value)),
            Word::SignedTerm(literal) => self.put_literal(literal),
            Word::StepId(step) => {
                let value = get(&self.step_numbers, step.place());
                self.put_number(i128::from(value))
            }
        }
    }

    /// Writes the line of a term.
    fn put_term(&mut self, term: TermId) -> Result<(), SearchStop> {
        let op = self.terms.op(term);
        self.put(op.name())?;
        match op {
            TermOp::Int | TermOp::Real => self.put_number(self.terms.written(term))?,
            TermOp::Var | TermOp::Def => self.put_number(i128::from(self.terms.index(term)))?,
            _ => {
                for k in 0..self.terms.arity(term) {
                    self.put_literal(self.terms.part(term, k))?;
                }
            }
        }
        self.put(b"\n")
    }

    /// Writes the terms that are needed, in the order in which they were made, and gives them numbers.
    fn put_terms(&mut self, needed: &[bool]) -> Result<(), SearchStop> {
        let mut count = 0u32;
        for n in 0..number(self.terms.end())? {
            let term = TermId::of(n);
            if get(needed, term.place()) {
                self.put_term(term)?;
                count = count.saturating_add(1);
                set(&mut self.term_numbers, term.place(), count)?;
            }
        }
        Ok(())
    }

    /// Writes what each definition is.
    fn put_definitions(&mut self, definitions: &[SignedTerm]) -> Result<(), SearchStop> {
        let mut place = 0i128;
        for literal in definitions {
            place = place.saturating_add(1);
            self.put(b"let")?;
            self.put_number(place)?;
            self.put_literal(*literal)?;
            self.put(b"\n")?;
        }
        Ok(())
    }

    /// Writes the line of a step.
    fn put_step(&mut self, step: StepId) -> Result<(), SearchStop> {
        self.put(self.steps.rule(step).name())?;
        let words = Words::of(self.steps, step);
        for place in 0..words.len() {
            self.put_word(words.at(place))?;
        }
        self.put(b"\n")
    }

    /// Writes the steps that are needed, in the order in which they were made, and gives them numbers.
    fn put_steps(&mut self, needed: &[bool]) -> Result<(), SearchStop> {
        let mut count = 0u32;
        for n in 0..number(self.steps.end())? {
            let step = StepId::of(n);
            if get(needed, step.place()) {
                self.put_step(step)?;
                count = count.saturating_add(1);
                set(&mut self.step_numbers, step.place(), count)?;
            }
        }
        Ok(())
    }
}

/// The certificate of a procedure of this name in which these steps stand, and those from which they follow, with all definitions.
/// `Memory` where there is no memory.
pub fn write(
    alloc: Global,
    problem: &Problem,
    terms: &Terms,
    steps: &Steps,
    name: &[u8],
    wanted: &[StepId],
) -> Result<Vec<u8>, SearchStop> {
    let steps_of_it = needed_steps(alloc, steps, wanted)?;
    let terms_of_it = needed_terms(alloc, problem, terms, steps, &steps_of_it)?;
    let mut writer = Writer {
        terms,
        steps,
        text: Vec::new(alloc),
        term_numbers: Vec::new(alloc),
        step_numbers: Vec::new(alloc),
    };
    writer.put(b"certificate ")?;
    writer.put(name)?;
    writer.put(b"\n")?;
    writer.put_terms(&terms_of_it)?;
    writer.put_definitions(&problem.definitions)?;
    writer.put_steps(&steps_of_it)?;
    Ok(writer.text)
}
