// What is told of a unit.
ghost use Rattle.std.specs.Prelude.{◌↔◌, All, IsTrue};
ghost use Rattle.unit_proof.specs.Shown.{IsProved};

use cert_terms::LineRefusal;
use vb_base::{Ident, Label};

/// Why there is no certificate of a unit. Whoever was asked for one says so, and nothing is promised of it.
#[derive(Clone, Copy, Debug, PartialEq, Eq)]
pub enum Unfound {
    /// There is none of this unit.
    Missing,
    /// The search ended, and this is the first assertion that it did not show.
    Open(Label),
    /// The budget of the search was spent.
    Spent,
}

/// What is shown of a unit: that no run of it fails, or nothing, and why.
#[derive(Clone, Copy, Debug, PartialEq, Eq)]
pub enum UnitVerdict {
    /// No run of it fails, at any label.
    Proved,
    /// There is no certificate of it.
    Uncertified(Unfound),
    /// This line of its certificate, from 1 on, is refused for this reason; or its end, at the number of the line that would follow.
    Refused(usize, LineRefusal),
}

/// What is told of a unit.
#[derive(Drop)]
pub struct UnitAnswer {
    /// Its name in the file.
    pub name: Ident,
    /// What is shown of it.
    pub verdict: UnitVerdict,
}

/// Whether a unit is proved.
fn is_proved(answer: &UnitAnswer) -> bool
    ensures { IsTrue result ↔ IsProved answer.now }
{
    match answer.verdict {
        UnitVerdict::Proved => true,
        UnitVerdict::Uncertified(_) | UnitVerdict::Refused(_, _) => false,
    }
}

/// Whether each unit is proved.
pub fn are_all_proved(answers: &[UnitAnswer]) -> bool
    ensures { IsTrue result ↔ All IsProved answers.now }
{
    answers.iter().all(|answer| is_proved(answer))
}
