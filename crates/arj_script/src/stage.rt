// Where the reader stands.
use arj_base::Format;
use arj_journal::ObjectLine;

/// Before `nodes`, in the header with the number of nodes, the format and the objects so far by their numbers, or behind `run`.
#[derive(Drop)]
pub enum Stage {
    Start,
    Objects {
        nodes: u8,
        format: Format,
        objects: Vec<ObjectLine>,
    },
    Running,
}
