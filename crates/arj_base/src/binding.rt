// Bindings of objects to servers.

/// Ties an object to one server: the incarnation of the naming service that made it, and a count from 1 within
/// that incarnation. Printed `inc.count`, ordered by both; `0.0` is none.
#[derive(Clone, Copy, Debug, PartialEq, Eq, PartialOrd, Ord)]
pub struct Binding {
    pub inc: u32,
    pub count: u32,
}
