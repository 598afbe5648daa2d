// The steps as types: each has what it stands on.
ghost use Rattle.std.specs.Prelude.{◌<◌, length};

use crate::Known;
use arj_base::{Binding, ObjectState};

/// Naming was asked for the binding, or for the entry's write lock.
#[derive(Clone, Copy)]
pub struct BindStep {
    pub avoid: Binding,
}

/// The store at this place of the list was asked for the object's state.
#[derive(Drop)]
pub struct LoadStep {
    pub known: Known,
    pub place: usize,
    ghost within: { place < length known.stores },
}

/// The server was given the state.
#[derive(Drop)]
pub struct ActivateStep {
    pub known: Known,
    pub state: ObjectState,
}

/// Naming was told that the server, of this incarnation, has the copy.
#[derive(Drop)]
pub struct RecordStep {
    pub known: Known,
    pub inc: u32,
}

/// The server was asked for the operation.
#[derive(Drop)]
pub struct InvokeStep {
    pub known: Known,
    pub inc: u32,
}

/// The step that waits.
#[derive(Drop)]
pub enum At {
    Bind(BindStep),
    Load(LoadStep),
    Activate(ActivateStep),
    Record(RecordStep),
    Invoke(InvokeStep),
}
