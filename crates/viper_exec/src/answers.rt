// Why an execution does not continue.
ghost use Rattle.std.specs.Prelude.{◌≡◌, suc, IfErr, IfOk};
ghost use Rattle.viper_inhale.specs.Answers.{run_halt, run_stop};
ghost use Rattle.viper_inhale.specs.declared.answers.StepHalt.TheVariants as halt;
ghost use Rattle.viper_exec.specs.declared.answers.Quit.TheVariants as quit;

use vb_base::Memory;
use viper_inhale::StepHalt;

/// Why an execution does not continue.
#[derive(Clone, Copy, Debug, PartialEq, Eq)]
pub(crate) enum Quit {
    Halts(StepHalt),
    /// A turn or a body was to begin, and nothing was left of the budget.
    Spent,
}

impl From<StepHalt> for Quit {
    ghost from_gives = { λ stop e. e ≡ quit.Halts stop };

    fn from(halt: StepHalt) -> Quit {
        Quit::Halts(halt)
    }
}

impl From<viper_eval::EvalHalt> for Quit {
    ghost from_gives = { λ stop e. e ≡ quit.Halts (run_halt stop) };

    fn from(halt: viper_eval::EvalHalt) -> Quit {
        Quit::Halts(halt.into())
    }
}

impl From<viper_eval::EvalStop> for Quit {
    ghost from_gives = { λ stop e. e ≡ quit.Halts (halt.Stops (run_stop stop)) };

    fn from(stop: viper_eval::EvalStop) -> Quit {
        Quit::Halts(stop.into())
    }
}

impl From<Memory> for Quit {
    ghost from_gives = { λ _ e. e ≡ quit.Halts halt.Memory };

    fn from(_: Memory) -> Quit {
        Quit::Halts(StepHalt::Memory)
    }
}

/// A turn or a body begins, which takes one of the budget.
pub(crate) fn begin(budget: &mut u64) -> Result<(), Quit>
    ensures begins { IfOk result (λ _. budget.old ≡ suc budget.new) }
    ensures spent { IfErr result (λ e. e ≡ quit.Spent) }
    ensures none_left { IfErr result (λ _. budget.old ≡ 0) }
    ensures still_none { IfErr result (λ _. budget.new ≡ 0) }
{
    match budget.checked_sub(1) {
        Some(left) => {
            *budget = left;
            Ok(())
        }
        None => Err(Quit::Spent),
    }
}
