// The operators of terms.
use search_base::get;

/// What a term is made by. The words of a leaf are numbers or none, those of any other term are its parts.
#[derive(Clone, Copy, PartialEq, Eq, Default)]
pub enum TermOp {
    /// No term.
    #[default]
    Nothing,
    /// A variable of the conditions, by its number.
    Var,
    /// A definition of the conditions that is a `forall`, by its number.
    Def,
    /// A name that a `forall` binds.
    Mark,
    True,
    Null,
    /// The content `sUnit`.
    Unit,
    /// A whole number, from 0 on.
    Int,
    /// A whole number as a real, from 0 on.
    Real,
    SInt,
    SBool,
    SRef,
    SPerm,
    SPair,
    Add,
    Sub,
    Mul,
    /// The quotient of reals.
    Div,
    IntDiv,
    Mod,
    Neg,
    /// A whole number as a real.
    ToReal,
    Eq,
    /// The first part is not above the second one.
    Le,
    And,
    /// A choice: the second part where the first one is true, else the third one.
    If,
    /// A map at keys.
    At,
    /// A map but for the value, its last part, at keys.
    Put,
}

/// All operators, each at its own code.
const OPS: [TermOp; 28] = [
    TermOp::Nothing,
    TermOp::Var,
    TermOp::Def,
    TermOp::Mark,
    TermOp::True,
    TermOp::Null,
    TermOp::Unit,
    TermOp::Int,
    TermOp::Real,
    TermOp::SInt,
    TermOp::SBool,
    TermOp::SRef,
    TermOp::SPerm,
    TermOp::SPair,
    TermOp::Add,
    TermOp::Sub,
    TermOp::Mul,
    TermOp::Div,
    TermOp::IntDiv,
    TermOp::Mod,
    TermOp::Neg,
    TermOp::ToReal,
    TermOp::Eq,
    TermOp::Le,
    TermOp::And,
    TermOp::If,
    TermOp::At,
    TermOp::Put,
];

/// The word of each operator in a certificate, at its code; none of those that stand in no certificate.
const NAMES: [&[u8]; 28] = [
    b"", b"var", b"def", b"", b"true", b"null", b"unit", b"int", b"real", b"sInt", b"sBool",
    b"sRef", b"sPerm", b"sPair", b"+", b"-", b"*", b"/", b"div", b"mod", b"neg", b"toreal", b"==",
    b"<=", b"&&", b"if", b"at", b"put",
];

impl TermOp {
    /// The word for it in a sequence.
    pub fn code(self) -> i64 {
        self as i64
    }

    /// The operator of a word.
    pub fn of_code(code: i64) -> TermOp {
        get(&OPS, usize::try_from(code).unwrap_or(0))
    }

    /// Its word in a certificate.
    pub fn name(self) -> &'static [u8] {
        NAMES.get(self as usize).copied().unwrap_or(b"")
    }

    /// Whether the words of a term are no terms.
    pub fn is_leaf(self) -> bool {
        (self as usize) <= TermOp::Real as usize
    }

    /// Whether it makes a content of parts.
    pub fn is_content(self) -> bool {
        matches!(
            self,
            TermOp::SInt | TermOp::SBool | TermOp::SRef | TermOp::SPerm | TermOp::SPair
        )
    }

    /// Whether it is a sum or a difference of two parts.
    pub fn is_sum(self) -> bool {
        matches!(self, TermOp::Add | TermOp::Sub)
    }

    /// Whether what it makes of constants equals a constant.
    pub fn is_folded(self) -> bool {
        self.is_sum()
            || matches!(
                self,
                TermOp::Neg | TermOp::ToReal | TermOp::Mul | TermOp::Div
            )
    }

    /// Whether the classes of terms say that equal parts make equal wholes.
    pub fn is_applied(self) -> bool {
        self.is_folded()
            || self.is_content()
            || matches!(self, TermOp::At | TermOp::IntDiv | TermOp::Mod)
    }
}
