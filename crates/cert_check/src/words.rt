// The words with which lines begin.
use boogie_tree::BOp;

/// The word of a line.
#[derive(Clone, Copy)]
pub(crate) enum LineWord {
    Let,
    Term(Form),
    Step(Reason),
}

/// The form of a term.
#[derive(Clone, Copy)]
pub(crate) enum Form {
    Variable,
    Definition,
    True,
    Null,
    Unit,
    Int,
    Real,
    SInt,
    SBool,
    SRef,
    SPerm,
    Pair,
    Op(BOp),
    Neg,
    ToReal,
    If,
    At,
    Put,
}

/// The reason of a step.
#[derive(Clone, Copy)]
pub(crate) enum Reason {
    Gate,
    Case,
    Listed(Listed),
    Paired(Paired),
    Single(Single),
    Triple(Triple),
    Inside,
    Inst,
    Sum,
    Rup,
}

/// A reason that names an equation and as many others as are needed.
#[derive(Clone, Copy)]
pub(crate) enum Listed {
    Hit,
    Path,
    Same,
}

/// A reason that names two truth values.
#[derive(Clone, Copy)]
pub(crate) enum Paired {
    Miss,
    Part,
    Over,
    Zero,
    Below,
}

/// A reason that names one truth value.
#[derive(Clone, Copy)]
pub(crate) enum Single {
    Apart,
    Rest,
    Ring,
}

/// A reason that names three truth values.
#[derive(Clone, Copy)]
pub(crate) enum Triple {
    Split,
    Times,
    Above,
}

/// All words, those that stand most often first.
const WORDS: [(&[u8], LineWord); 47] = [
    (b"rup", LineWord::Step(Reason::Rup)),
    (b"gate", LineWord::Step(Reason::Gate)),
    (b"==", LineWord::Term(Form::Op(BOp::Eq))),
    (b"&&", LineWord::Term(Form::Op(BOp::And))),
    (b"let", LineWord::Let),
    (b"at", LineWord::Term(Form::At)),
    (b"put", LineWord::Term(Form::Put)),
    (b"if", LineWord::Term(Form::If)),
    (b"var", LineWord::Term(Form::Variable)),
    (b"def", LineWord::Term(Form::Definition)),
    (b"<=", LineWord::Term(Form::Op(BOp::Le))),
    (b"+", LineWord::Term(Form::Op(BOp::Add))),
    (b"-", LineWord::Term(Form::Op(BOp::Sub))),
    (b"*", LineWord::Term(Form::Op(BOp::Mul))),
    (b"/", LineWord::Term(Form::Op(BOp::Divide))),
    (b"div", LineWord::Term(Form::Op(BOp::IntDiv))),
    (b"mod", LineWord::Term(Form::Op(BOp::IntMod))),
    (b"neg", LineWord::Term(Form::Neg)),
    (b"toreal", LineWord::Term(Form::ToReal)),
    (b"int", LineWord::Term(Form::Int)),
    (b"real", LineWord::Term(Form::Real)),
    (b"true", LineWord::Term(Form::True)),
    (b"null", LineWord::Term(Form::Null)),
    (b"unit", LineWord::Term(Form::Unit)),
    (b"sInt", LineWord::Term(Form::SInt)),
    (b"sBool", LineWord::Term(Form::SBool)),
    (b"sRef", LineWord::Term(Form::SRef)),
    (b"sPerm", LineWord::Term(Form::SPerm)),
    (b"sPair", LineWord::Term(Form::Pair)),
    (b"case", LineWord::Step(Reason::Case)),
    (b"hit", LineWord::Step(Reason::Listed(Listed::Hit))),
    (b"miss", LineWord::Step(Reason::Paired(Paired::Miss))),
    (b"inst", LineWord::Step(Reason::Inst)),
    (b"path", LineWord::Step(Reason::Listed(Listed::Path))),
    (b"same", LineWord::Step(Reason::Listed(Listed::Same))),
    (b"part", LineWord::Step(Reason::Paired(Paired::Part))),
    (b"apart", LineWord::Step(Reason::Single(Single::Apart))),
    (b"inside", LineWord::Step(Reason::Inside)),
    (b"split", LineWord::Step(Reason::Triple(Triple::Split))),
    (b"sum", LineWord::Step(Reason::Sum)),
    (b"over", LineWord::Step(Reason::Paired(Paired::Over))),
    (b"zero", LineWord::Step(Reason::Paired(Paired::Zero))),
    (b"rest", LineWord::Step(Reason::Single(Single::Rest))),
    (b"below", LineWord::Step(Reason::Paired(Paired::Below))),
    (b"times", LineWord::Step(Reason::Triple(Triple::Times))),
    (b"above", LineWord::Step(Reason::Triple(Triple::Above))),
    (b"ring", LineWord::Step(Reason::Single(Single::Ring))),
];

/// The word that bytes spell, if they spell one.
pub(crate) fn word_of(bytes: &[u8]) -> Option<LineWord> {
    for (text, word) in &WORDS {
        if *text == bytes {
            return Some(*word);
        }
    }
    None
}
