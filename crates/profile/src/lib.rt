// A counterparty's profile: its test, its limit, and what is made of it once a call: the marks, and where to look for a void name.

#![tactic(auto)]

mod bytes;
mod names;
mod runs;
mod valid;

pub use bytes::{SIZE, limit, tl};
pub use names::VoidNames;
pub use valid::{Profile, check, is_fine};
