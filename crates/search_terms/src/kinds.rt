// What terms are values of.

/// What a term is a value of. Of a map only what it gives is known here, and not its keys.
#[derive(Clone, Copy, PartialEq, Eq, Default)]
pub enum TermKind {
    #[default]
    Nothing,
    Bool,
    Int,
    Real,
    Ref,
    /// Contents.
    Snap,
    BoolMap,
    IntMap,
    RealMap,
    RefMap,
    SnapMap,
}

impl TermKind {
    /// Whether it is a number.
    pub fn is_number(self) -> bool {
        matches!(self, TermKind::Int | TermKind::Real)
    }

    /// A map that gives such values.
    pub fn map(self) -> TermKind {
        match self {
            TermKind::Bool => TermKind::BoolMap,
            TermKind::Int => TermKind::IntMap,
            TermKind::Real => TermKind::RealMap,
            TermKind::Ref => TermKind::RefMap,
            TermKind::Snap => TermKind::SnapMap,
            _ => TermKind::Nothing,
        }
    }

    /// What a map gives.
    pub fn of_map(self) -> TermKind {
        match self {
            TermKind::BoolMap => TermKind::Bool,
            TermKind::IntMap => TermKind::Int,
            TermKind::RealMap => TermKind::Real,
            TermKind::RefMap => TermKind::Ref,
            TermKind::SnapMap => TermKind::Snap,
            _ => TermKind::Nothing,
        }
    }

    /// The word for it in a sequence.
    pub fn code(self) -> i64 {
        self as i64
    }
}
