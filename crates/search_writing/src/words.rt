// What the words of steps are.
use search_base::{SignedTerm, StepId};
use search_steps::{StepRule, Steps};

/// A word of a step.
#[derive(Clone, Copy)]
pub(crate) enum Word {
    Number(i64),
    /// A term or a literal.
    SignedTerm(SignedTerm),
    StepId(StepId),
}

/// Whether the word at a place, from 0 on, is a number. The word 0 that parts two lists stands at `zero`, or behind all words.
fn is_number(rule: StepRule, at: usize, zero: usize) -> bool {
    match rule {
        StepRule::Gate | StepRule::Case | StepRule::Inside => at > 0,
        StepRule::Inst => at == 0,
        // Weights stand before what they weigh, on both sides of the 0.
        StepRule::Sum if at < zero => at % 2 == 0,
        StepRule::Sum if at > zero => (at - zero) % 2 == 1,
        StepRule::Sum | StepRule::Rup => at == zero,
        _ => false,
    }
}

/// The words of a step behind its reason.
#[derive(Drop)]
pub(crate) struct Words<'a> {
    rule: StepRule,
    words: &'a [i64],
    zero: usize,
}

impl<'a> Words<'a> {
    /// Those of this step.
    pub(crate) fn of(steps: &'a Steps, step: StepId) -> Words<'a> {
        let words = steps.words(step);
        Words {
            rule: steps.rule(step),
            words,
            zero: words.iter().position(|it| *it == 0).unwrap_or(words.len()),
        }
    }

    /// How many there are.
    pub(crate) fn len(&self) -> usize {
        self.words.len()
    }

    /// The word at a place; the number 0 where there is none.
    pub(crate) fn at(&self, place: usize) -> Word {
        let word = self.words.get(place).copied().unwrap_or(0);
        if is_number(self.rule, place, self.zero) {
            Word::Number(word)
        } else if self.rule == StepRule::Rup && place > self.zero {
            Word::StepId(StepId::of_word(word))
        } else {
            Word::SignedTerm(SignedTerm::of_word(word))
        }
    }
}
