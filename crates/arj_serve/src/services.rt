// The services of a node.
ghost use Rattle.std.specs.Prelude.{◌≡◌};

use arj_naming::Naming;
use arj_server::Server;
use std::alloc::Global;
use std::marker::Model;

/// The services of a node: its server, its store of objects, and naming where the node has it. After a fault of the disk
/// they aren't used again, but made anew from what the disk has.
#[derive(Drop)]
pub struct Services<O> {
    pub(crate) alloc: Global,
    pub(crate) number: u8,
    pub(crate) server: Server,
    pub(crate) naming: Option<Naming<O>>,
    pub(crate) store: O,
}

impl<O> Model for Services<O> {
    ghost use Rattle.arj_serve.specs.Kept.{Kept};

    ghost Value = { Kept O };

    ghost view = { λ s. record { number = s.number; server = s.server; naming = s.naming; store = s.store } };
}

impl<O> Services<O> {
    /// The services of the node of this number.
    pub fn new(
        alloc: Global,
        number: u8,
        server: Server,
        naming: Option<Naming<O>>,
        store: O,
    ) -> Services<O>
        ensures { result ≡ record { number = number; server = server; naming = naming; store = store } }
    {
        Services {
            alloc,
            number,
            server,
            naming,
            store,
        }
    }
}
