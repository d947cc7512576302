//! The steps of an engine, as data: a call on the core, with its arguments; and the calls of its
//! devices. The core makes the steps, one or a list, and a script is read into them; so both speak
//! of one type. What it is for a step to fit is said here (`StepFits`), and nothing is proved.
#![tactic(auto)]

mod device_call;
mod step;

pub use device_call::DeviceCall;
pub use step::Step;
