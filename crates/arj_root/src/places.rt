// Where the grants of each object stand in the list of all, with their tops.
ghost use Rattle.std.specs.Prelude.{◌≡◌, [], OnOk, OnErr, option_copied};
ghost use Rattle.arj_protocol.specs.Order.{at_number};
ghost use Rattle.arj_root.specs.Placed.{placed, with_place, place_in};

use arj_base::{Seq, Uid};
use std::alloc::{AllocError, Global};
use std::collections::BTreeMap;
use std::marker::Model;

/// Places by object, each with its top.
#[derive(Drop)]
pub struct Places {
    places: BTreeMap<u16, Seq<(Uid, usize)>>,
}

impl Model for Places {
    ghost use Rattle.arj_root.specs.Placed.{Places};

    ghost Value = { Places };

    ghost view = { λ p. p.places.entries };
}

impl Places {
    /// No places. It allocates nothing.
    pub fn new(alloc: Global) -> Places
        ensures { result ≡ [] }
    {
        Places {
            places: BTreeMap::new(alloc),
        }
    }

    /// Notes the place of an object and a top, behind those that are there.
    pub fn add(&mut self, alloc: Global, x: u16, top: Uid, place: usize) -> Result<(), AllocError>
        ensures added { OnOk result (self.new ≡ with_place x top place self.old) }
        ensures kept { OnErr result (self.new ≡ self.old) }
    {
        if let Some(places) = self.places.get_mut(&x) {
            return places.push((top, place));
        }
        let mut places = Seq::new(alloc);
        places.push((top, place))?;
        self.places.insert(x, places)?;
        Ok(())
    }

    /// The places at an object.
    pub fn at(&self, x: u16) -> Option<&Seq<(Uid, usize)>>
        ensures { option_copied result ≡ at_number x self.now }
    {
        self.places.get(&x)
    }

    /// The place of an object and a top.
    pub fn place(&self, x: u16, top: Uid) -> Option<usize>
        ensures { result ≡ place_in top (placed x self.now) }
    {
        match self.at(x) {
            Some(places) => first_of(places.as_slice(), top),
            None => None,
        }
    }
}

// The first place of a top.
fn first_of(places: &[(Uid, usize)], top: Uid) -> Option<usize>
    ensures { result ≡ place_in top places.now }
{
    for (other, place) in places {
        if *other == top {
            return Some(*place);
        }
    }
    None
}
