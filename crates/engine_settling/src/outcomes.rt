//! What was done already is done.

ghost use Rattle.std.specs.Prelude.{◌≡◌};
ghost use Rattle.engine_settling.specs.Bringing.{done_as};

use engine::CoreFault;

/// Done, where a call was refused since it was done already.
pub(crate) fn done(outcome: Result<(), CoreFault>) -> Result<(), CoreFault>
    ensures { result ≡ done_as outcome }
{
    match outcome {
        Ok(()) => Ok(()),
        Err(CoreFault::NotReady) => Ok(()),
        Err(fault) => Err(fault),
    }
}
