//! How workers end.

ghost use Rattle.std.specs.Prelude.{◌≡◌, true, IfOk, IfErr};
ghost use Rattle.runner_report.specs.declared.error.ExploreError.TheVariants as explore;
ghost use Rattle.runner_workers.specs.declared.exit.Exit.TheVariants.{Stopped, OutOfMemory};

use runner_report::ExploreError;

/// How a worker, or all of them, ended.
#[derive(Clone, Copy, PartialEq, Eq)]
pub enum Exit {
    /// All rounds of the stretch are walked, or the board has no number any more.
    Finished,
    /// The gate stopped a worker.
    Stopped,
    /// Memory ran out.
    OutOfMemory,
}

impl Exit {
    /// Whether a worker was stopped by the gate.
    ///
    /// # Errors
    ///
    /// `OutOfMemory` where memory ran out.
    pub fn is_stopped(self) -> Result<bool, ExploreError>
        ensures stopped { IfOk result (λ b. b ≡ true → self ≡ Stopped) }
        ensures told { IfOk result (λ b. self ≡ Stopped → b ≡ true) }
        ensures memory { IfOk result (λ _. self ≡ OutOfMemory → ⊥) }
        ensures refused { IfErr result (λ _. self ≡ OutOfMemory) }
        ensures error { IfErr result (λ e. e ≡ explore.OutOfMemory) }
    {
        match self {
            Exit::Finished => Ok(false),
            Exit::Stopped => Ok(true),
            Exit::OutOfMemory => Err(ExploreError::OutOfMemory),
        }
    }
}
