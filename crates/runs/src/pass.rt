//! One loop for every pass over the records of a file.

ghost use Rattle.std.specs.Prelude.{◌≡◌, Result, OnOk};
ghost use Rattle.tokens.specs.Outcomes.{told, left_by};
ghost use Rattle.steps.specs.declared.fault.Fault.{Fault};
ghost use Rattle.steps.specs.declared.state.RecordAt.{RecordAt};
ghost use Rattle.runs.specs.Laws.{records_of, Whole};
ghost use Rattle.runs.specs.Passes.{ended, over};
ghost use Rattle.runs.specs.Runs.{run};

use crate::walk::Walk;
use steps::{Fault, RecordAt};

/// What is made of the records of a file, one after the other. A record may be refused.
pub trait Pass {
    ghost State: { Type 0 };

    ghost state: { Self → State };

    ghost grown: { State → RecordAt → Result State Fault };

    /// One record more. A refusal leaves the state.
    fn take(&mut self, found: RecordAt) -> Result<(), Fault>
        ensures answer { result ≡ told (grown (state self.old) found) }
        ensures after { state self.new ≡ left_by (state self.old) (grown (state self.old) found) };
}

/// Hands each record of a file to a pass, up to the first fault of the file or refusal of the pass. Where neither comes, the
/// file is whole: the magic, and records one behind the other up to END at its last byte.
pub fn run_pass<P: Pass>(file: &[u8], pass: &mut P) -> Result<(), Fault>
    ensures runs { ended result (P.Pass.state pass.new) ≡ over P.Pass.grown (P.Pass.state pass.old) (run file.now) }
    ensures whole { OnOk result (Whole file.now (records_of (run file.now))) }
{
    for found in Walk::over(file)? {
        pass.take(found?)?;
    }
    Ok(())
}
