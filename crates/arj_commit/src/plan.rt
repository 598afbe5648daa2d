// What a commit is about, and what it has heard.
ghost use Rattle.std.specs.Prelude.{◌≡◌, ◌+◌, ◌≤◌, true, IfOk, IfErr};
ghost use Rattle.arj_protocol.specs.Commit.{included_of};
ghost use Rattle.arj_commit.specs.Plans.{with_changed};
ghost use Rattle.arj_commit.specs.declared.limits.TheConstants.{LAST_START};

use crate::marks::included;
use crate::states::put_states;
use arj_base::{Binding, Ends, NodeList, ObjectState, Path, Seq, States};
use arj_msg::Marks;
use std::alloc::{AllocError, AllocFailed, Global};
use std::marker::Model;
use std::mem;

/// An object with a call that survives in the top or that its serializing action retains (`called`), or with such an
/// include. `joins` are the stores of the includes that survive in the top itself, `loaded` the state that these bring.
/// `grant` is the least naming incarnation of the grants that count. Without a call `binding`, `server` and `inc` are 0.
#[derive(Drop)]
pub struct Used {
    pub x: u16,
    pub called: bool,
    pub binding: Binding,
    pub server: u8,
    pub inc: u32,
    pub grant: u32,
    pub stores: NodeList,
    pub joins: NodeList,
    pub loaded: Option<ObjectState>,
}

impl Model for Used {
    ghost use Rattle.arj_protocol.specs.Commit.{Used};

    ghost Value = { Used };

    ghost view = { λ u. record { x = u.x; called = u.called; binding = u.binding; server = u.server; inc = u.inc; grant = u.grant; stores = u.stores; joins = u.joins; loaded = u.loaded } };
}

/// The used objects of a commit, in order of their numbers.
pub type UsedList = Seq<Used>;

/// The plan of a commit. `req` is the number of the action's last request, `ends` are the root's, `sent` the nodes that were sent a
/// message of the top, this commit's own among them. The last four are what the commit has heard: the changed states in
/// order of their objects, the stores that prepared, the stores marked for exclusion by object, and whether naming
/// confirmed; they begin empty and false.
#[derive(Drop)]
pub struct Plan {
    pub path: Path,
    pub req: u32,
    pub ends: Ends,
    pub used: UsedList,
    pub sent: NodeList,
    pub changed: States,
    pub prepared: NodeList,
    pub excluded: Marks,
    pub confirmed: bool,
}

impl Model for Plan {
    ghost use Rattle.arj_protocol.specs.Commit.{Plan};

    ghost Value = { Plan };

    ghost view = { λ p. record { path = p.path; req = p.req; ends = p.ends; used = p.used; sent = p.sent; changed = p.changed; prepared = p.prepared; excluded = p.excluded; confirmed = p.confirmed } };
}

impl Plan {
    /// The includes that survive in the top, as objects and stores, without those that are marked for exclusion.
    pub fn included(&self, alloc: Global) -> Result<Marks, AllocError>
        ensures { IfOk result (λ marks. marks ≡ included_of self.now) }
    {
        included(alloc, self.excluded.as_slice(), self.used.as_slice())
    }

    /// The plan with states that changed besides. Where there is no memory for it, the plan comes back as it was.
    pub(crate) fn with_changed(
        mut self,
        alloc: Global,
        more: Vec<ObjectState>,
    ) -> Result<Plan, AllocFailed<Plan>>
        ensures ok { IfOk result (λ plan. plan ≡ with_changed more.items self) }
        ensures kept { IfErr result (λ failed. failed.value ≡ self) }
    {
        let before = mem::replace(&mut self.changed, States::new(alloc));
        match put_states(before, more) {
            Ok(changed) => {
                self.changed = changed;
                Ok(self)
            }
            Err(AllocFailed { value: before }) => {
                self.changed = before;
                Err(AllocFailed { value: self })
            }
        }
    }

    /// The plan, where these stores have prepared.
    pub(crate) fn with_prepared(mut self, prepared: NodeList) -> Plan
        ensures { result ≡ record self { prepared = prepared } }
    {
        self.prepared = prepared;
        self
    }

    /// The plan, where these stores are marked.
    pub(crate) fn with_excluded(mut self, excluded: Marks) -> Plan
        ensures { result ≡ record self { excluded = excluded } }
    {
        self.excluded = excluded;
        self
    }

    /// The plan, where naming has confirmed.
    pub(crate) fn with_confirmed(mut self) -> Plan
        ensures { result ≡ record self { confirmed = true } }
    {
        self.confirmed = true;
        self
    }

    /// The plan with the next request number, where these nodes were sent something.
    pub(crate) fn further(mut self, sent: NodeList) -> Plan
        requires { self.req ≤ LAST_START + 2 }
        ensures { result ≡ record self { req = self.req + 1; sent = sent } }
    {
        self.req += 1;
        self.sent = sent;
        self
    }
}
