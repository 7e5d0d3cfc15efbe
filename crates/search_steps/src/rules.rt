// The reasons of steps.
/// Why a step holds. Which literals and words go with each is told in `docs/certificates.md`.
#[derive(Clone, Copy, PartialEq, Eq)]
pub enum StepRule {
    Gate,
    Case,
    Hit,
    Miss,
    Inst,
    Path,
    Same,
    Part,
    Apart,
    Inside,
    Split,
    Sum,
    Over,
    Zero,
    Rest,
    Below,
    Times,
    Above,
    Ring,
    Rup,
}

/// All reasons, each at its own code.
const RULES: [StepRule; 20] = [
    StepRule::Gate,
    StepRule::Case,
    StepRule::Hit,
    StepRule::Miss,
    StepRule::Inst,
    StepRule::Path,
    StepRule::Same,
    StepRule::Part,
    StepRule::Apart,
    StepRule::Inside,
    StepRule::Split,
    StepRule::Sum,
    StepRule::Over,
    StepRule::Zero,
    StepRule::Rest,
    StepRule::Below,
    StepRule::Times,
    StepRule::Above,
    StepRule::Ring,
    StepRule::Rup,
];

/// The word of each reason in a certificate, at its code.
const NAMES: [&[u8]; 20] = [
    b"gate", b"case", b"hit", b"miss", b"inst", b"path", b"same", b"part", b"apart", b"inside",
    b"split", b"sum", b"over", b"zero", b"rest", b"below", b"times", b"above", b"ring", b"rup",
];

impl StepRule {
    /// The word for it in a sequence.
    pub fn code(self) -> i64 {
        self as i64
    }

    /// The reason of a word; `Rup` where it is of none.
    pub fn of_code(code: i64) -> StepRule {
        match usize::try_from(code) {
            Ok(at) => RULES.get(at).copied().unwrap_or(StepRule::Rup),
            Err(_) => StepRule::Rup,
        }
    }

    /// Its word in a certificate.
    pub fn name(self) -> &'static [u8] {
        NAMES.get(self as usize).copied().unwrap_or(b"")
    }
}
