// The library's calls on numbers and slices: a call returns the refusal's number, or 0, and leaves the count and the answer's
// values where the caller asks for them. The calls are in `exports`, and how they leave an answer in `numbers`. The crate tl_c exports
// each of them to C.

#![tactic(auto)]

mod exports;
mod numbers;

pub use exports::{
    tl_attribute, tl_attributes, tl_attributes_for_names, tl_get_element_by_id,
    tl_get_elements_by_class_name, tl_inner_text, tl_inner_texts, tl_parse,
    tl_parse_query_selector, tl_query_selector, tl_query_selector_below, tl_range,
};
