// Does a node match a selector (queryselector/selector.rs): tests of a tag's values, one simple selector, and a chain of pieces. `t` is
// the lent table of marks, `page` the page, `s` the selector's bytes.

#![tactic(auto)]

mod chain;
mod simple;
mod values;

pub use chain::matches;
pub use simple::{class_times, fits, has_id};
