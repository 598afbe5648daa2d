// The locks that tops were granted on entries.
ghost use Rattle.std.specs.Prelude.{◌≡◌, ◌<◌, length, IfSome, Some, None, option_copied, slice_get, [], ◌&&◌, ◌==◌, OnOk, OnErr};
ghost use Rattle.std.specs.List.{list_any};
ghost use Rattle.arj_protocol.specs.Asking.{was_named};
ghost use Rattle.arj_protocol.specs.Coord as coord;
ghost use Rattle.arj_root.specs.Merged.{of_grants, place_of, regranted};
ghost use Rattle.arj_base.specs.Uid.{uid_eq};
ghost use Rattle.arj_root.specs.Placed.{any_named_at, names_at};

use crate::places::Places;
use arj_base::{Binding, Uid};
use arj_bind::Grant;
use std::alloc::{AllocError, Global};
use std::marker::Model;

/// The grants, one of each top and object, in order. Contracts see the protocol's list.
#[derive(Drop)]
pub struct Grants {
    alloc: Global,
    grants: Vec<Grant>,
    // Where those of each object stand.
    places: Places,
}

impl Model for Grants {
    ghost use Rattle.std.specs.Prelude.{List};
    ghost use Rattle.arj_protocol.specs.Coord as coord;
    ghost use Rattle.arj_root.specs.Placed.{HasPlaces};

    ghost Value = { List coord.Grant };

    ghost view = { λ g. g.grants.items };

    ghost invariant = { λ g. HasPlaces g.places g.grants.items };
}

impl Grants {
    /// No grants. It allocates nothing.
    pub fn new(alloc: Global) -> Grants
        ensures { result ≡ [] }
    {
        Grants {
            alloc,
            grants: Vec::new(alloc),
            places: Places::new(alloc),
        }
    }

    /// The grants in order.
    pub fn as_slice(&self) -> &[Grant]
        ensures { result.now ≡ self.now }
    {
        self.grants.as_slice()
    }

    /// Notes what a top was granted: of one top and object the least naming incarnation counts, and the binding that was
    /// named last. It looks at the grants on the object alone.
    pub fn note(&mut self, grant: Grant) -> Result<(), AllocError>
        ensures noted { OnOk result (self.new ≡ (coord.with_grant grant (of_grants self.old)).grants) }
        ensures kept { OnErr result (self.new ≡ self.old) }
    {
        match self.find(grant.top, grant.x) {
            Some(at) => {
                self.raise(at, &grant);
                Ok(())
            }
            None => self.put(grant),
        }
    }

    // The place of the grant of a top and an object.
    fn find(&self, top: Uid, x: u16) -> Option<usize>
        ensures place { result ≡ place_of (coord.is_grant_of top x) 0 self.now }
        ensures within { IfSome result (λ at. at < length self.now) }
    {
        self.places.place(x, top)
    }

    // The grant at this place takes up another one of its kind.
    fn raise(&mut self, at: usize, grant: &Grant)
        requires place { place_of (coord.is_grant_of grant.now.top grant.now.x) 0 self.old ≡ Some at }
        requires within { at < length self.old }
        ensures { self.new ≡ coord.granted_with grant.now self.old }
    {
        self.grants[at].take(grant.least, grant.named);
    }

    // A grant of a top and an object that have none.
    fn put(&mut self, grant: Grant) -> Result<(), AllocError>
        requires { place_of (coord.is_grant_of grant.top grant.x) 0 self.old ≡ None }
        ensures put { OnOk result (self.new ≡ coord.granted_with grant self.old) }
        ensures kept { OnErr result (self.new ≡ self.old) }
    {
        self.grants.reserve(1)?;
        self.places
            .add(self.alloc, grant.x, grant.top, self.grants.len())?;
        self.grants.push_reserved(grant);
        Ok(())
    }

    /// Whether the top's last answer to a call on the object named the binding. It looks at the grants on the object alone.
    pub fn was_named(&self, top: Uid, x: u16, binding: Binding) -> bool
        ensures { result ≡ was_named top x binding (of_grants self.now) }
    {
        match self.places.at(x) {
            Some(places) => any_named(self.grants.as_slice(), places.as_slice(), top, binding),
            None => false,
        }
    }
}

// Whether a grant of the top at one of these places named the binding last.
fn any_named(grants: &[Grant], places: &[(Uid, usize)], top: Uid, binding: Binding) -> bool
    ensures { result ≡ any_named_at top binding grants.now places.now }
{
    for place in places {
        if is_named_at(grants, place.0, place.1, top, binding) {
            return true;
        }
    }
    false
}

// Whether it is the place of this top, and the grant there named the binding last.
fn is_named_at(grants: &[Grant], other: Uid, place: usize, top: Uid, binding: Binding) -> bool
    ensures { result ≡ (uid_eq other top && names_at binding (slice_get grants.now place)) }
{
    other == top && names(grants.get(place), binding)
}

// Whether a grant named the binding last.
fn names(grant: Option<&Grant>, binding: Binding) -> bool
    ensures { result ≡ names_at binding (option_copied grant.entry) }
{
    match grant {
        Some(found) => found.names(binding),
        None => false,
    }
}
