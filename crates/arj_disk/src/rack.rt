// The disks of all nodes.
ghost use Rattle.std.specs.Prelude.{◌≡◌, ◌≤◌, ◌-◌, List, length, slice_get, slice_set};
ghost use Rattle.std.specs.Borrow.{Lends, sem};
ghost use Rattle.arj_disk.specs.contracts.rack.Rack.{the_row};

use std::marker::Model;

/// Sixteen disks, one for each node, of which a run may use the first few. Contracts see the list of them.
#[derive(Drop)]
pub struct Rack<D> {
    disks: Vec<D>,
}

impl<D> Model for Rack<D> {
    ghost use Rattle.std.specs.Prelude.{◌≡◌, List, length};

    ghost Value = { List D };

    ghost view = { λ r. r.disks.items };

    ghost invariant = { λ r. length r.disks.items ≡ 16 };
}

impl<D> Rack<D> {
    /// A rack of these disks, the first for node 1.
    pub fn new(disks: Vec<D>) -> Rack<D>
        requires { length disks.items ≡ 16 }
        ensures { result ≡ disks.items }
    {
        Rack { disks }
    }

    /// The disk of a node, 1 to 16.
    pub fn disk(&mut self, node: u8) -> &mut D
        requires least { 1 ≤ node }
        requires greatest { node ≤ 16 }
        // What is left in the disk is what the rack then has for the node.
        ensures* lent { sem 𝓛 (Lends (the_row D.row) D.row self.entry result (λ w. slice_set self.entry.now (node - 1) w)) }
        ensures value { slice_get self.old (node - 1) ≡ Some result.now }
    {
        &mut self.disks[usize::from(node - 1)]
    }
}
