// Why a program is refused.
ghost use Rattle.std.specs.Prelude.{◌≡◌};
ghost use Rattle.viper_types.specs.Checked.{told};
ghost use Rattle.viper_types.specs.declared.faults.TypeFault.TheVariants as fault;

use vb_base::{Memory, Pos};
use viper_scope::RuleFault;

/// Why a program is refused.
#[derive(Clone, Copy, Debug, PartialEq, Eq)]
pub enum TypeFault {
    /// Memory was refused.
    Memory,
    /// The rule of this number is broken at this place; no rule is broken before it.
    Rule(Pos, u32),
    /// The program is well-typed and weighs more than `MAX_WEIGHT`. The weight is told as `TOO_HEAVY`.
    Weight(u64),
}

impl From<Memory> for TypeFault {
    ghost from_gives = { λ _ e. e ≡ fault.Memory };

    fn from(_: Memory) -> TypeFault {
        TypeFault::Memory
    }
}

impl From<RuleFault> for TypeFault {
    ghost from_gives = { λ f e. e ≡ told f };

    fn from(fault: RuleFault) -> TypeFault {
        match fault {
            RuleFault::Memory => TypeFault::Memory,
            RuleFault::Broken(at, rule) => TypeFault::Rule(at, rule.number()),
        }
    }
}
