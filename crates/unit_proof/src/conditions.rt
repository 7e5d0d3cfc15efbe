// What there is to show of a unit.
use boogie_formula::Conditions;
use vb_base::Ident;

/// What there is to show of a unit: that no assertion of these conditions can fail.
#[derive(Drop)]
pub struct UnitConditions {
    /// The name of its procedure.
    pub name: Ident,
    /// The conditions of its procedure.
    pub conditions: Conditions,
}
