//! What serves the messages of a code.
ghost use Rattle.std.specs.Prelude.{◌≡◌};
ghost use Rattle.std.specs.Option.{option_and_then, option_copied, option_map};
ghost use Rattle.model_system.specs.Jobs.{job_with};
ghost use Rattle.model_system.specs.System as model;
ghost use Rattle.system_types.specs.Jobs.{lent_job};

use model_system::{Code, Pcbs, Program, SystemProgram, Transaction};

/// What serves the messages of a code: its operands, its program, and the PCBs of this.
#[derive(Clone, Copy, Debug)]
pub struct Job<'a> {
    pub transaction: &'a Transaction,
    pub program: &'a Program,
    pub pcbs: &'a Pcbs,
}

/// The job of a code by its program.
pub(crate) fn job_of<'a>(
    code: Option<&'a Code>,
    program: Option<&'a SystemProgram>,
) -> Option<Job<'a>>
    ensures { (system : model.System) → option_map (lent_job system) result ≡ option_and_then (λ c. option_map (job_with system c) (option_copied program.entry)) (option_copied code.entry) }
{
    let code = code?;
    let program = program?;
    Some(Job {
        transaction: &code.transaction,
        program: &program.program,
        pcbs: &program.pcbs,
    })
}
