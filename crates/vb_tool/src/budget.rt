// How many called bodies and turns of loops an execution may begin.
ghost use Rattle.std.specs.Prelude.{◌≡◌};
ghost use Rattle.vb_tool.specs.Budget.{max_execution_budget};

/// The greatest budget of an execution.
pub const MAX_EXECUTION_BUDGET: u32 = 10_000;

/// The constant is the limit of the definitions.
pub fn constant_is_limit()
    ensures { MAX_EXECUTION_BUDGET ≡ max_execution_budget }
{}
