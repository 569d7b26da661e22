// What a tag is asked for (parser/tag): its attributes, the range of its handles, its inner text.

#![tactic(auto)]

mod below;
mod buffer;
mod iter;
mod lookup;
mod opening;

pub use below::{inner_text, range, text_length, text_of};
pub use buffer::copy;
pub use iter::{Attributes, next_attribute};
pub use lookup::{held, is_last, is_named};
pub use opening::Tag;
