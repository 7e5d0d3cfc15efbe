// The numbers of terms, truth values and steps.

/// A term, by its number from 1 on, or none.
#[derive(Clone, Copy, PartialEq, Eq, PartialOrd, Ord, Default)]
pub struct TermId(u32);

impl TermId {
    /// No term.
    pub const NONE: TermId = TermId(0);

    /// The term of this number; 0 is none.
    pub fn of(number: u32) -> TermId {
        TermId(number)
    }

    /// The number of a term; 0 of none.
    pub fn number(self) -> u32 {
        self.0
    }

    /// The place of a term in a list by terms.
    pub fn place(self) -> usize {
        self.0 as usize
    }

    /// Whether it is none.
    pub fn is_none(self) -> bool {
        self.0 == 0
    }

    /// The term itself, where a term or a negation is wanted.
    pub fn literal(self) -> SignedTerm {
        SignedTerm(self.0.cast_signed())
    }

    /// The literal that a truth value is so, or is not.
    pub fn signed(self, holds: bool) -> SignedTerm {
        if holds {
            self.literal()
        } else {
            self.literal().negated()
        }
    }
}

/// A term, or the negation of a term that is a truth value; or none.
#[derive(Clone, Copy, PartialEq, Eq, PartialOrd, Ord, Default)]
pub struct SignedTerm(i32);

impl SignedTerm {
    /// No literal.
    pub const NONE: SignedTerm = SignedTerm(0);

    /// The term of which it is one.
    pub fn term(self) -> TermId {
        TermId(self.0.unsigned_abs())
    }

    /// The negation.
    pub fn negated(self) -> SignedTerm {
        SignedTerm(self.0.wrapping_neg())
    }

    /// Whether it is a negation.
    pub fn is_negated(self) -> bool {
        self.0 < 0
    }

    /// Whether it is a term, and no negation.
    pub fn is_plain(self) -> bool {
        self.0 > 0
    }

    /// Whether it is none.
    pub fn is_none(self) -> bool {
        self.0 == 0
    }

    /// The place of a literal in a list by literals: two for each term.
    pub fn place(self) -> usize {
        let place = self.0.unsigned_abs() as usize * 2;
        if self.0 < 0 { place + 1 } else { place }
    }

    /// The word for it in a sequence: the number of its term, with a `-` where it is a negation.
    pub fn word(self) -> i64 {
        i64::from(self.0)
    }

    /// The literal of a word; none where it is of no literal.
    pub fn of_word(word: i64) -> SignedTerm {
        SignedTerm(i32::try_from(word).unwrap_or(0))
    }
}

/// A step of a certificate in the making, by its number from 1 on, or none.
#[derive(Clone, Copy, PartialEq, Eq, PartialOrd, Ord, Default)]
pub struct StepId(u32);

impl StepId {
    /// No step.
    pub const NONE: StepId = StepId(0);

    /// The step of this number; 0 is none.
    pub fn of(number: u32) -> StepId {
        StepId(number)
    }

    /// The number of a step; 0 of none.
    pub fn number(self) -> u32 {
        self.0
    }

    /// The place of a step in a list by steps.
    pub fn place(self) -> usize {
        self.0 as usize
    }

    /// Whether it is none.
    pub fn is_none(self) -> bool {
        self.0 == 0
    }

    /// The step, where there is one.
    pub fn found(self) -> Option<StepId> {
        if self.0 == 0 { None } else { Some(self) }
    }

    /// The word for it in a sequence.
    pub fn word(self) -> i64 {
        i64::from(self.0)
    }

    /// The step of a word; none where it is of no step.
    pub fn of_word(word: i64) -> StepId {
        StepId(u32::try_from(word).unwrap_or(0))
    }
}
