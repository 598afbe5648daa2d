// What a label stands for.
use std::marker::Model;

/// The node of a label's action, 1 to 16, and whether the action is serializing.
#[derive(Drop)]
pub struct Labelled {
    pub node: u8,
    pub serial: bool,
}

impl Model for Labelled {
    ghost use Rattle.arj_protocol.specs.World.{Labelled};

    ghost Value = { Labelled };

    ghost view = { λ l. record { node = l.node; serial = l.serial } };
}
