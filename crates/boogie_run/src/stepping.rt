// Runs of procedures, statement by statement.
ghost use Rattle.std.specs.Prelude.{◌≡◌, List, IfOk, OnOk, Some};
ghost use Rattle.vb_value.specs.Bound.{Bounded};
ghost use Rattle.boogie_tree.specs.Value as v;
ghost use Rattle.boogie_tree.specs.Whole.{run_of, stmt_of};
ghost use Rattle.boogie_meaning.specs.Run as m;
ghost use Rattle.boogie_meaning.specs.Run.{Done, Stops, then_run, brun_stmt};
ghost use Rattle.boogie_run.specs.Ready.{KeepsReady};
ghost use Rattle.boogie_run.specs.Start.{start_of, outcome_of};
ghost use Rattle.boogie_run.specs.Stepped.{run_in};
ghost use Rattle.boogie_types.specs.Typed.{types_in};
ghost use Rattle.boogie_eval.specs.Within.{IsWithinStmt};

use crate::replay_choices::BoogieFeed;
use crate::replay_ends::{ReplayStop, stop_of};
use crate::replay_runs::run_stmt;
use crate::replay_values::Environment;
use crate::replaying::{BOutcome, feed_of, outcome_at, start};
use boogie_tree::{BRun, BStmt, Local};
use std::alloc::Global;
use vb_base::Memory;

/// A run of a procedure, as far as it has come. Contracts see how it has ended so far.
#[derive(Drop)]
pub struct Running<'a> {
    env: Environment,
    feed: BoogieFeed<'a>,
    /// Why it was stopped, if it was.
    stop: Option<ReplayStop>,
}

impl<'a> Running<'a> {
    /// A run of no statements yet, on the settings and choices of a run.
    pub fn begin(alloc: Global, locals: &[Local], run: &'a BRun) -> Result<Running<'a>, Memory>
        ensures { IfOk result (λ x. run_in x ≡ Done (start_of (types_in locals.now) (run_of run.now).settings) (run_of run.now).choices) }
    {
        let env = start(alloc, locals, &run.settings)?;
        let feed = feed_of(&run.choices);
        Ok(Running {
            env,
            feed,
            stop: None,
        })
    }

    /// Runs one statement more. Nothing more happens after a run was stopped.
    pub fn step(&mut self, alloc: Global, locals: &[Local], stmt: &BStmt) -> Result<(), Memory>
        requires within { IsWithinStmt (stmt_of stmt.now) }
        requires ready { KeepsReady (run_in self.old) }
        ensures { OnOk result (run_in self.new ≡ then_run (run_in self.old) (brun_stmt (types_in locals.now) Bounded (stmt_of stmt.now))) }
    {
        if self.stop.is_some() {
            return Ok(());
        }
        match run_stmt(alloc, locals, stmt, &mut self.env, &mut self.feed) {
            Ok(()) => Ok(()),
            Err(halt) => {
                self.stop = Some(stop_of(halt)?);
                Ok(())
            }
        }
    }

    /// How the run of the statements so far has ended.
    pub fn outcome(&self) -> BOutcome
        requires { (left : List v.BChoice) → run_in self.now ≡ Stops m.Wrong left → ⊥ }
        ensures { outcome_of (run_in self.now) ≡ Some result }
    {
        match self.stop {
            None => BOutcome::Done,
            Some(stop) => outcome_at(stop),
        }
    }
}
