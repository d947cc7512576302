//! What the calls of a running engine are in the plain machine: an accepted read or work is one
//! plain step, of the named task and input, and no other call, nor one that is refused, moves the
//! plain configuration that the engine stands for. Proved: an accepted read or work is exactly one
//! plain step, of the named task and input, and no other call moves the plain configuration; a
//! fresh engine that runs stands for one that the plain machine reaches.
//!
//! Nothing here runs. Each public function has an empty body, and its contract is the law.
#![tactic(auto)]

ghost use Rattle.engine_model.specs.Language.{Language};
ghost use Rattle.engine_plain.specs.PlainLaws.{CallsArePlain, FreshEnginesAreReached, StandForOne};

/// Each call of a running engine, however it ends, is one plain step or none: an accepted read, an
/// operator's work and a sink's work are one, and all else is none.
pub fn calls_are_plain<R, K, S, O>()
    ensures { (lang : Language R K S O) → CallsArePlain lang }
{}

/// A fresh engine that runs stands for a configuration that the plain machine reaches from its
/// start.
pub fn fresh_engines_are_reached<R, K, S, O>()
    ensures { (lang : Language R K S O) → FreshEnginesAreReached lang }
{}

/// A running engine stands for one plain configuration, if different records are spelled
/// differently.
pub fn engines_stand_for_one<R, K, S, O>()
    ensures { (lang : Language R K S O) → StandForOne lang }
{}
