//! Claims.

ghost use Rattle.std.specs.Prelude.{◌≡◌, ◌<◌, ◌≤◌, ◌↔◌, ◌++◌, ◌∷◌, [], ℕ, List, length, IsTrue, OnOk, IfSome, IfNone, IfErr};
ghost use Rattle.std.specs.List.{All, remove};
ghost use Rattle.engine_model.specs.declared.fault.CoreFault.TheVariants as CoreFault;
ghost use Rattle.dataflow_core.specs.Claims.{IsBusy, IsClaimAt, claims_left};
ghost use Rattle.dataflow_core.specs.CoreState.{claims_after};

use engine_model::CoreFault;

/// A task's hold on the first records of an input.
#[derive(Clone, Copy, Debug, PartialEq, Eq)]
pub struct Claim {
    /// No two claims of a core ever have one number.
    pub serial: u64,
    pub task: u32,
    pub input: u32,
}

/// Whether a task holds a claim, on whatever input.
pub(crate) fn is_busy(claims: &[Claim], task: u32) -> bool
    ensures { IsTrue result ↔ IsBusy task claims.now }
{
    for claim in claims {
        if claim.task == task {
            return true;
        }
    }
    false
}

/// The claim of a serial, and its place.
pub(crate) fn claim_of(claims: &[Claim], serial: u64) -> Option<(usize, Claim)>
    ensures some { IfSome result (λ found. IsClaimAt claims.now serial found.0 found.1) }
    ensures none { IfNone result ((at : ℕ) (claim : Claim)
        → ¬ IsClaimAt claims.now serial at claim) }
{
    for at in 0..claims.len() {
        let claim = claims[at];
        if claim.serial == serial {
            return Some((at, claim));
        }
    }
    None
}

/// Drops all claims where an attempt was made.
pub(crate) fn drop_claims<T>(claims: &mut Vec<Claim>, outcome: &Result<T, CoreFault>)
    ensures claims { claims.new.items ≡ claims_after outcome.now claims.old.items }
    ensures fewer { length claims.new.items ≤ length claims.old.items }
    ensures below { (bound : ℕ) → All (λ claim. claim.serial < bound) claims.old.items
        → All (λ claim. claim.serial < bound) claims.new.items }
{
    if outcome.is_ok() {
        claims.clear();
    }
}

/// Keeps one claim more.
pub(crate) fn keep_claim(claims: &mut Vec<Claim>, claim: Claim) -> Result<(), CoreFault>
    ensures ok { OnOk result (claims.new.items ≡ claims.old.items ++ claim ∷ []) }
    ensures err { IfErr result (λ fault. (fault ≡ CoreFault.Memory)
        × (claims.new.items ≡ claims.old.items)) }
{
    if claims.push(claim).is_err() {
        return Err(CoreFault::Memory);
    }
    Ok(())
}

/// Takes a claim away. The last, which is the only one where one worker runs, is taken with the
/// others left where they lie.
fn take_out(claims: &mut Vec<Claim>, at: usize)
    requires { at < length claims.old.items }
    ensures claims { claims.new.items ≡ remove claims.old.items at }
    ensures below { (bound : ℕ) → All (λ claim. claim.serial < bound) claims.old.items
        → All (λ claim. claim.serial < bound) claims.new.items }
{
    if at + 1 == claims.len() {
        let _ = claims.pop();
    } else {
        let _ = claims.remove(at);
    }
}

/// Ends a claim, but where the result was a wrong one.
pub(crate) fn end_claim(claims: &mut Vec<Claim>, at: usize, outcome: &Result<(), CoreFault>)
    requires { at < length claims.old.items }
    ensures claims { claims.new.items ≡ claims_left at outcome.now claims.old.items }
    ensures fewer { length claims.new.items ≤ length claims.old.items }
    ensures below { (bound : ℕ) → All (λ claim. claim.serial < bound) claims.old.items
        → All (λ claim. claim.serial < bound) claims.new.items }
{
    match outcome {
        Err(CoreFault::WrongResult) => {}
        _ => take_out(claims, at),
    }
}
