// What a script begins with.
use arj_base::{Format, NodeList, Seq};
use arj_class::Value;

/// The nodes, 1 to 16, the objects, by their numbers, and the format of their first states.
#[derive(Drop)]
pub struct Header {
    pub nodes: u8,
    pub objects: ObjectLines,
    pub format: Format,
}

/// An object with its first value, its servers in order of preference, and its stores.
#[derive(Drop)]
pub struct ObjectLine {
    pub x: u16,
    pub value: Value,
    pub servers: NodeList,
    pub stores: NodeList,
}

/// The objects of a header.
pub type ObjectLines = Seq<ObjectLine>;
