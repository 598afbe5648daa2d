// Bindings that were made, and the one that is in use.
use arj_base::Binding;
use std::marker::Model;

/// The binding of an object that is in use: its server, and the server's incarnation.
#[derive(Clone, Copy)]
pub struct Live {
    pub binding: Binding,
    pub server: u8,
    pub inc: u32,
}

/// A binding that was made for a top, to this server, and whether it was recorded.
#[derive(Drop)]
pub struct Made {
    pub binding: Binding,
    pub server: u8,
    pub recorded: bool,
}

impl Model for Made {
    ghost use Rattle.arj_protocol.specs.Named.{Made};

    ghost Value = { Made };

    ghost view = { λ m. record { binding = m.binding; server = m.server; recorded = m.recorded } };
}
