//! Workers on one core, in as many threads. The core stands in a [`Station`] behind a lock, beside
//! a book of totals and the turns of a run. Proved: whoever holds the lock holds a core with what
//! every core keeps; each call of a station does what the core's call of that name does;
//! `finish_with` does what the core's own `finish` does, `accept_with` what its `accept` does, and
//! `accept_rows_with` what its `accept_rows` does, and each adds the number of the records that are
//! taken to the worker's share and the book; with all shares gathered, the book's total is their
//! sum; and what a [`run`] reports is what it added to the share that was handed to it. Jobs are
//! run with no lock held, of one record each ([`run`]) or of up to 1,024 ([`run_batched`]).
//!
//! A station may have readers: `with_readers` makes 16 of them, which `reader` hands out. `publish`
//! shows them what is committed, and answers a [`Told`] that names these lists; [`run`] publishes
//! after each round of commits and at its end. An [`OutputReader`] never waits, for no lock and for
//! no worker. Proved: what readers can see of a sink subtask begins what it has committed
//! (`published_begins`), and is all of it where `publish` answers a `Told`; no other call changes
//! what they can see. Not proved: that `run` publishes. A station without readers holds no rows but
//! the core's.
//!
//! Which step comes next is chosen by a [`Schedule`], on which nothing rests but that the run comes
//! to rest.
//!
//! # An example
//!
//! Workers take a job to rest, beside readers in threads of their own.
//!
//! ```
//! let opened = Station::<O, S, X, P, L, &R>::with_readers(rt, alloc, core, schedule, blank);
//! let (mut station, mut share) = opened.ok()?;
//! let watchers = start(rt, alloc, &mut station, meeting);
//! let station = Mutex::new(station);
//! let pause: &Meeting = meeting;
//! let report = run(
//!     rt, alloc, &station, &mut share, workers, every, TURNS, 0, pause,
//! );
//! meeting.ends();
//! let watchers = join_all(rt, alloc, watchers);
//! ```
//!
//! There `start` takes readers of the station, and moves each into a thread that reads until the
//! run is over. So does a reader that is told what was published:
//!
//! ```
//! let mut reader = station.reader().ok()?;
//! let told = station.publish().ok()?;
//! let there = move || {
//!     reader.learn(told);
//!     let rows = reader.read(0).ok();
//!     (reader, rows)
//! };
//! Some(join(rt, there, || ()).0)
//! ```
//!
//! These are lines of `play` and of `told_there` in `station_tests` (src/playing.rt), where they
//! are proved and run, with the bounds of their types.
#![tactic(auto)]

mod calls;
mod crew;
mod patience;
mod pause;
mod station;

pub use crew::{Report, run, run_batched};
pub use output_readers::{OutputFault, OutputReader, Told};
pub use pause::{NoPause, Pause};
pub use run_schedule::{RunFault, Schedule};
pub use station::Station;
