// What an evaluation goes by.
use jexl_parser::Node;
use jexl_value::{Attributes, Value};
use std::alloc::Global;

/// What an evaluation goes by. The parts that are kept stand by their places, and relative names speak
/// of the current item.
#[derive(Drop)]
pub(crate) struct Scene<'a, 'p, C> {
    pub alloc: Global,
    pub attributes: &'a Attributes,
    pub table: &'p C,
    pub parts: &'p [&'p Node],
    pub current: &'a Value,
}
