// The calls on a list of handles: one test of page, table and handles, then the single call's answer for each handle, in order. Page and
// table, names and ends come as two slices each, as the C interface lends them. A call refuses by a `match`, since `?` would leave the
// buffer that it was lent as it was.

#![tactic(auto)]

mod held;
mod names;
mod skips;
mod texts;

pub use held::attributes;
pub use names::attributes_for_names;
pub use texts::inner_texts;
