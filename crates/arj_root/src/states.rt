// The states that a root's constituents prepared last.
ghost use Rattle.std.specs.Prelude.{◌≡◌, [], IfSome, OnOk, option_copied};
ghost use Rattle.arj_protocol.specs.Ending.{states_after};
ghost use Rattle.arj_protocol.specs.Order.{at_number, put_number};
ghost use Rattle.arj_root.specs.Kept.{HasNumber};

use arj_base::ObjectState;
use arj_bind::copy_state;
use std::alloc::{AllocError, Global};
use std::collections::BTreeMap;
use std::marker::Model;

/// The states that the commits of a root's constituents prepared last, by the numbers of their objects. Contracts see the
/// protocol's list.
#[derive(Drop)]
pub struct LastStates {
    states: BTreeMap<u64, ObjectState>,
}

impl Model for LastStates {
    ghost use Rattle.arj_root.specs.Kept.{States, AreNumbered};

    ghost Value = { States };

    ghost view = { λ s. s.states.entries };

    ghost invariant = { λ s. AreNumbered s.states.entries };
}

impl LastStates {
    /// No states. It allocates nothing.
    pub fn new(alloc: Global) -> LastStates
        ensures { result ≡ [] }
    {
        LastStates {
            states: BTreeMap::new(alloc),
        }
    }

    /// The state of an object.
    pub fn at(&self, x: u16) -> Option<&ObjectState>
        ensures at { option_copied result ≡ at_number x self.now }
        ensures own { IfSome (at_number x self.now) (HasNumber x) }
    {
        self.states.get(&u64::from(x))
    }

    // This is the state of its object from now on.
    fn put(&mut self, state: ObjectState) -> Result<(), AllocError>
        ensures { OnOk result (self.new ≡ put_number state.uid.num state self.old) }
    {
        self.states.insert(state.uid.num, state)?;
        Ok(())
    }

    /// A commit prepared these states.
    pub fn put_all(&mut self, states: &[ObjectState]) -> Result<(), AllocError>
        ensures { OnOk result (self.new ≡ states_after states.now self.old) }
    {
        for state in states {
            self.put(copy_state(state)?)?;
        }
        Ok(())
    }
}
