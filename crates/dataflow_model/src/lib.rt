//! The plain dataflow machine, and its laws. Proved: a step is unique, two neighbouring steps of
//! different tasks change places, runs join and part, and growing partitions keep runs
//! (`steps_are_unique`, `steps_change_places`, `steps_come_earlier`, ..).
//!
//! A job is a directed graph of sources, operators and sinks, what its operators mean, and the
//! partitions that its sources read. The plain machine moves one record at a time: a source reads
//! its next one, or a task works off the first record of an input. It knows no barriers,
//! checkpoints or failures: it says what a job's sinks are to put out.
//!
//! Steps are unique, steps of different tasks change places, runs can be joined and parted, and
//! stay runs when partitions grow. Nothing here runs. Each public function has an empty body, and
//! its contract is the law.
//!
//! Source: the execution graphs of Carbone, Fóra, Ewen, Haridi and Tzoumas, "Lightweight
//! Asynchronous Snapshots for Distributed Dataflows", 2015.
#![tactic(auto)]

ghost use Rattle.dataflow_model.specs.Graph.{Job};
ghost use Rattle.dataflow_model.specs.Laws.{StepsAreUnique, StepsAreIndependent, StepsChangePlaces, StepsGoFirst, GrowthKeepsRuns, StepsStayPossible, StepsComeEarlier, EndsAreUnique, RunsJoin, RunsPart, MomentsStay, StepsAreLocal};

/// The same move from the same configuration ends in the same.
pub fn steps_are_unique<R, K, S, O>()
    ensures { (job : Job R K S O) → StepsAreUnique job }
{}

/// Moves of different tasks that can be made from one configuration can be made in either order.
pub fn steps_are_independent<R, K, S, O>()
    ensures { (job : Job R K S O) → StepsAreIndependent job }
{}

/// Two steps of different tasks change places, where the second was possible before the first.
pub fn steps_change_places<R, K, S, O>()
    ensures { (job : Job R K S O) → StepsChangePlaces job }
{}

/// A move goes before any moves of other tasks.
pub fn steps_go_first<R, K, S, O>()
    ensures { (job : Job R K S O) → StepsGoFirst job }
{}

/// A run stays a run when partitions grow.
pub fn growth_keeps_runs<R, K, S, O>()
    ensures { (job : Job R K S O) → GrowthKeepsRuns job }
{}

/// A move that can be made can still be made after moves of other tasks.
pub fn steps_stay_possible<R, K, S, O>()
    ensures { (job : Job R K S O) → StepsStayPossible job }
{}

/// A step that was possible before moves of other tasks can be made before them.
pub fn steps_come_earlier<R, K, S, O>()
    ensures { (job : Job R K S O) → StepsComeEarlier job }
{}

/// The same moves from the same configuration end in the same.
pub fn ends_are_unique<R, K, S, O>()
    ensures { (job : Job R K S O) → EndsAreUnique job }
{}

/// Moves reach what their parts reach, one after the other.
pub fn runs_join<R, K, S, O>()
    ensures { (job : Job R K S O) → RunsJoin job }
{}

/// Moves can be parted at any place.
pub fn runs_part<R, K, S, O>()
    ensures { (job : Job R K S O) → RunsPart job }
{}

/// A run that goes on keeps its moments.
pub fn moments_stay<R, K, S, O>()
    ensures { (job : Job R K S O) → MomentsStay job }
{}

/// A step looks at what its task holds and at its input's first record alone.
pub fn steps_are_local<R, K, S, O>()
    ensures { (job : Job R K S O) → StepsAreLocal job }
{}
