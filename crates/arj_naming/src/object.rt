// One object at naming.
ghost use Rattle.std.specs.Prelude.{◌≡◌, ◌+◌, ℕ, true, false, [], ◌++◌, ◌∷◌, None, IfOk, OnOk, map, option_map};
ghost use Rattle.arj_base.specs.declared.mode.End.TheVariants as ending;
ghost use Rattle.arj_base.specs.declared.mode.Mode.TheVariants as mode;
ghost use Rattle.arj_base.specs.Rows.{Row, last_uid};
ghost use Rattle.arj_base.specs.Uid.{entry};
ghost use Rattle.arj_lock.specs.Exclusion.{IsOneEach};
ghost use Rattle.arj_lock.specs.Held.{AreBelow, AreListed};
ghost use Rattle.arj_protocol.specs.Ask.{top_of};
ghost use Rattle.arj_protocol.specs.Copy.{holds, row_for};
ghost use Rattle.arj_protocol.specs.Effect.{Say};
ghost use Rattle.arj_protocol.specs.Named as protocol;
ghost use Rattle.arj_protocol.specs.Named.{Named, unnamed, conflict_on, locked, lock_lines, live_above, made_above, live_asked, make_asked, include_asked, bind_made, bind_named, note_named, note_other, note_made, lowered, lower_lines, is_lowered, end_named, hello_named, live_after};
ghost use Rattle.arj_protocol.specs.Order.{at_uid, with_uid, drop_uid};
ghost use Rattle.arj_protocol.specs.Server.{row_top};
ghost use Rattle.arj_protocol.specs.Words.body;
ghost use Rattle.arj_naming.specs.Bound.{is_to};
ghost use Rattle.arj_naming.specs.Objects.{live_of, changed_by, counted, IsServed};
ghost use Rattle.arj_naming.specs.Said.{said};
ghost use Rattle.arj_naming.specs.Touched.{looks_apart};
ghost use Rattle.arj_protocol.specs.Order.{is_binding};

use crate::bindings::{is_below, is_same, next_server};
use crate::change::Change;
use crate::counter::Counter;
use crate::lines::{NAMING_NODE, say};
use crate::locks::grant;
use crate::made::{Live, Made};
use crate::nobody::NOBODY;
use crate::uids::{drop_uid, is_among};
use arj_base::{Binding, End, Mode, Path, Uid, Uids, entry_uid};
use arj_entry::Entry;
use arj_journal::{Body, Lines};
use arj_lock::{LockTable, rows_are_one_each};
use arj_msg::{Bind, BoundReply, RecordMsg, RecordedReply};
use std::alloc::{AllocError, Global};
use std::collections::{BTreeMap, BTreeSet};
use std::marker::Model;

/// One object at naming: who was bound to which server, what is live, and the locks on its entry. Contracts see it as the
/// protocol's.
#[derive(Drop)]
pub struct NamedObject {
    live: Option<Live>,
    recorded: Option<Binding>,
    made: BTreeMap<Uid, Made>,
    asked: BTreeSet<Uid>,
    turn: Option<u8>,
    locks: LockTable,
}

impl Model for NamedObject {
    ghost use Rattle.std.specs.Prelude.{option_map};
    ghost use Rattle.arj_lock.specs.Exclusion.{IsOneEach};
    ghost use Rattle.arj_naming.specs.Objects.{live_of};
    ghost use Rattle.arj_protocol.specs.Named.{Named};

    ghost Value = { Named };

    ghost view = { λ o. record { live = option_map live_of o.live; recorded = o.recorded; made = o.made.entries; asked = o.asked.keys; turn = o.turn; rows = o.locks } };

    ghost invariant = { λ o. IsOneEach o.locks };
}

impl NamedObject {
    /// An object of which nothing is known but its entry. It allocates nothing.
    pub fn new(alloc: Global) -> NamedObject
        ensures { result ≡ unnamed [] }
    {
        rows_are_one_each();
        NamedObject {
            live: None,
            recorded: None,
            made: BTreeMap::new(alloc),
            asked: BTreeSet::new(alloc),
            turn: None,
            locks: LockTable::new(alloc),
        }
    }

    /// An object whose entry was found prepared: its action has a lock on it again.
    pub fn locked(
        alloc: Global,
        x: u16,
        action: Uid,
        mode: Mode,
        out: &mut Lines,
    ) -> Result<NamedObject, AllocError>
        ensures object { IfOk result (λ object. object ≡ unnamed (row_for (entry x) (action ∷ []) 1 mode ∷ [])) }
        ensures lines { OnOk result (out.new ≡ out.old ++ said (Say (body.Granted 1 action (entry x) mode) ∷ [])) }
    {
        rows_are_one_each();
        let mut locks = LockTable::new(alloc);
        grant(&mut locks, &Path::new(action), x, mode, out)?;
        Ok(NamedObject {
            live: None,
            recorded: None,
            made: BTreeMap::new(alloc),
            asked: BTreeSet::new(alloc),
            turn: None,
            locks,
        })
    }

    /// Answers a Bind, by the object's entry.
    pub fn bind(
        &mut self,
        counter: &mut Counter,
        m: &Bind,
        entry: Entry,
        out: &mut Lines,
    ) -> Result<BoundReply, AllocError>
        ensures served { IfOk result (IsServed (bind_named counter.old.inc m.now.x m.now.head.path m.now.include m.now.avoid entry (counted self.old counter.old)) (counted self.new counter.new) out.old out.new) }
        ensures inc { counter.new.inc ≡ counter.old.inc }
    {
        if m.include {
            return self.bind_include(counter, m, entry, out);
        }
        match self.live_above(m.avoid) {
            Some(live) => self.bind_live(counter, m, entry, live, out),
            None => self.bind_make(counter, m, entry, out),
        }
    }

    // A lock on the entry that stands against a request.
    fn conflict(&self, x: u16, path: &Path, mode: Mode) -> Option<(Uid, Mode)>
        ensures { result ≡ option_map (λ r. (last_uid r.holder, r.mode)) (conflict_on x path.now mode self.now) }
    {
        self.locks.conflict(&path.top_path(), entry_uid(x), mode)
    }

    // Locks the entry, where nothing stands against it.
    fn lock(&mut self, x: u16, path: &Path, mode: Mode, out: &mut Lines) -> Result<(), AllocError>
        requires { conflict_on x path.now mode self.old ≡ None }
        ensures object { OnOk result (self.new ≡ locked x path.now mode self.old) }
        ensures lines { OnOk result (out.new ≡ out.old ++ said (lock_lines x path.now mode self.old)) }
    {
        grant(&mut self.locks, path, x, mode, out)
    }

    // The live binding, where it is above the one to avoid.
    fn live_above(&self, avoid: Binding) -> Option<Live>
        ensures { option_map live_of result ≡ live_above avoid self.now.live }
    {
        match self.live {
            Some(live) if is_below(avoid, live.binding) => Some(live),
            _ => None,
        }
    }

    // The binding that was made for a top and isn't recorded yet, with its server, where it is above the one to avoid.
    fn made_above(&self, top: Uid, avoid: Binding) -> Option<(Binding, u8)>
        ensures { result ≡ option_map (λ m. (m.binding, m.server)) (made_above avoid (at_uid top self.now.made)) }
    {
        match self.made.get(&top) {
            Some(made) if !made.recorded && is_below(avoid, made.binding) => {
                Some((made.binding, made.server))
            }
            _ => None,
        }
    }

    // A read lock, and the live binding.
    fn bind_live(
        &mut self,
        counter: &Counter,
        m: &Bind,
        entry: Entry,
        live: Live,
        out: &mut Lines,
    ) -> Result<BoundReply, AllocError>
        ensures { IfOk result (IsServed (live_asked counter.now.inc m.now.x m.now.head.path entry (counted self.old counter.now) (live_of live) (conflict_on m.now.x m.now.head.path mode.Read self.old)) (counted self.new counter.now) out.old out.new) }
    {
        if let Some((holder, mode)) = self.conflict(m.x, &m.head.path, Mode::Read) {
            return Ok(BoundReply::Conflict { holder, mode });
        }
        self.lock(m.x, &m.head.path, Mode::Read, out)?;
        Ok(BoundReply::Live {
            binding: live.binding,
            server: live.server,
            server_inc: live.inc,
            naming_inc: counter.inc,
            stores: entry.stores,
        })
    }

    // The write lock, and nothing else.
    fn bind_include(
        &mut self,
        counter: &Counter,
        m: &Bind,
        entry: Entry,
        out: &mut Lines,
    ) -> Result<BoundReply, AllocError>
        ensures { IfOk result (IsServed (include_asked counter.now.inc m.now.x m.now.head.path entry (counted self.old counter.now) (conflict_on m.now.x m.now.head.path mode.Write self.old)) (counted self.new counter.now) out.old out.new) }
    {
        if let Some((holder, mode)) = self.conflict(m.x, &m.head.path, Mode::Write) {
            return Ok(BoundReply::Conflict { holder, mode });
        }
        self.lock(m.x, &m.head.path, Mode::Write, out)?;
        self.asked.insert(m.head.path.top_path().last())?;
        Ok(BoundReply::Write {
            naming_inc: counter.inc,
            stores: entry.stores,
        })
    }

    // The write lock, and the binding that was made for this top or the next one.
    fn bind_make(
        &mut self,
        counter: &mut Counter,
        m: &Bind,
        entry: Entry,
        out: &mut Lines,
    ) -> Result<BoundReply, AllocError>
        ensures served { IfOk result (IsServed (make_asked counter.old.inc m.now.x m.now.head.path m.now.avoid entry (counted self.old counter.old) (conflict_on m.now.x m.now.head.path mode.Write self.old)) (counted self.new counter.new) out.old out.new) }
        ensures inc { counter.new.inc ≡ counter.old.inc }
    {
        if let Some((holder, mode)) = self.conflict(m.x, &m.head.path, Mode::Write) {
            return Ok(BoundReply::Conflict { holder, mode });
        }
        let top = m.head.path.top_path().last();
        let made = self.made_above(top, m.avoid);
        self.lock(m.x, &m.head.path, Mode::Write, out)?;
        let (binding, server) = match made {
            Some(made) => made,
            None => self.bind_next(counter, m, entry.servers.as_slice(), out)?,
        };
        Ok(BoundReply::Make {
            binding,
            server,
            naming_inc: counter.inc,
            stores: entry.stores,
        })
    }

    // Makes the next binding, for the top of this path.
    fn bind_next(
        &mut self,
        counter: &mut Counter,
        m: &Bind,
        servers: &[u8],
        out: &mut Lines,
    ) -> Result<(Binding, u8), AllocError>
        ensures object { IfOk result (λ made. self.new ≡ protocol.make made.0 made.1 m.now.head.path self.old) }
        ensures binding { IfOk result (λ made. made.0 ≡ record { inc = counter.old.inc; count = counter.old.count + 1 }) }
        ensures server { IfOk result (λ made. made.1 ≡ protocol.next_server self.old.turn servers.now) }
        ensures count { OnOk result (counter.new ≡ record { inc = counter.old.inc; count = counter.old.count + 1 }) }
        ensures lines { IfOk result (λ made. out.new ≡ out.old ++ said (Say (body.Bound m.now.x made.0 made.1) ∷ [])) }
        ensures inc { counter.new.inc ≡ counter.old.inc }
    {
        let binding = counter.next().ok_or(AllocError)?;
        let server = next_server(self.turn, servers);
        let made = Made {
            binding,
            server,
            recorded: false,
        };
        self.made.insert(m.head.path.top_path().last(), made)?;
        self.turn = Some(server);
        counter.count = binding.count;
        let bound = Body::Bound {
            x: m.x,
            binding,
            node: server,
        };
        say(out, bound)?;
        Ok((binding, server))
    }

    /// Answers a Record. None where nothing is known of its binding.
    pub fn note(
        &mut self,
        m: &RecordMsg,
        out: &mut Lines,
    ) -> Result<Option<RecordedReply>, AllocError>
        ensures part { OnOk result (self.new ≡ (note_named m.now.x (top_of m.now.head.path) m.now.binding m.now.server_inc self.old).part) }
        ensures lines { OnOk result (out.new ≡ out.old ++ said (note_named m.now.x (top_of m.now.head.path) m.now.binding m.now.server_inc self.old).outs) }
        ensures reply { IfOk result (λ r. r ≡ (note_named m.now.x (top_of m.now.head.path) m.now.binding m.now.server_inc self.old).reply) }
    {
        if self.is_recorded(m.binding) {
            return Ok(Some(RecordedReply::Yes));
        }
        self.note_made(m, m.head.path.top_path().last(), out)
    }

    // Whether the binding was recorded last.
    fn is_recorded(&self, binding: Binding) -> bool
        ensures { result ≡ is_binding binding self.now.recorded }
    {
        match self.recorded {
            Some(recorded) => is_same(binding, recorded),
            None => false,
        }
    }

    // Records the binding, if it is the one that was made last for this top.
    fn note_made(
        &mut self,
        m: &RecordMsg,
        top: Uid,
        out: &mut Lines,
    ) -> Result<Option<RecordedReply>, AllocError>
        ensures part { OnOk result (self.new ≡ (note_other m.now.x top m.now.binding m.now.server_inc self.old (at_uid top self.old.made)).part) }
        ensures lines { OnOk result (out.new ≡ out.old ++ said (note_other m.now.x top m.now.binding m.now.server_inc self.old (at_uid top self.old.made)).outs) }
        ensures reply { IfOk result (λ r. r ≡ (note_other m.now.x top m.now.binding m.now.server_inc self.old (at_uid top self.old.made)).reply) }
    {
        let Some(made) = self.made.get(&top) else {
            return Ok(None);
        };
        if !is_same(m.binding, made.binding) {
            return Ok(None);
        }
        if !made.recorded {
            let live = Live {
                binding: made.binding,
                server: made.server,
                inc: m.server_inc,
            };
            self.use_made(m.x, top, live, out)?;
        }
        Ok(Some(RecordedReply::Yes))
    }

    // A binding that was made for this top is in use from now on.
    fn use_made(&mut self, x: u16, top: Uid, live: Live, out: &mut Lines) -> Result<(), AllocError>
        ensures object { OnOk result (self.new ≡ lowered x top (protocol.in_use top (record { binding = live.binding; server = live.server; recorded = false }) live.inc self.old)) }
        ensures lines { OnOk result (out.new ≡ out.old ++ said (lower_lines x top self.old)) }
    {
        let made = Made {
            binding: live.binding,
            server: live.server,
            recorded: true,
        };
        self.made.insert(top, made)?;
        self.live = Some(live);
        self.recorded = Some(live.binding);
        self.lower(x, top, out)
    }

    // Lowers the top's write lock on the entry to read, unless it also asked it by an include.
    fn lower(&mut self, x: u16, top: Uid, out: &mut Lines) -> Result<(), AllocError>
        ensures object { OnOk result (self.new ≡ lowered x top self.old) }
        ensures lines { OnOk result (out.new ≡ out.old ++ said (lower_lines x top self.old)) }
    {
        if !self.locks.writes(top, entry_uid(x)) || is_among(&self.asked, top) {
            return Ok(());
        }
        rows_are_one_each();
        self.locks.lower(top, entry_uid(x));
        let lowered = Body::Lowered {
            node: NAMING_NODE,
            action: top,
            object: entry_uid(x),
        };
        say(out, lowered)
    }

    /// A lock of the exclude mode, where nothing stands against it.
    pub fn exclude(&mut self, x: u16, path: &Path, out: &mut Lines) -> Result<(), AllocError>
        requires { conflict_on x path.now mode.Exclude self.old ≡ None }
        ensures object { OnOk result (self.new ≡ locked x path.now mode.Exclude self.old) }
        ensures lines { OnOk result (out.new ≡ out.old ++ said (lock_lines x path.now mode.Exclude self.old)) }
    {
        self.lock(x, path, Mode::Exclude, out)
    }

    /// The lock that stands against the exclude lock.
    pub fn against_exclude(&self, x: u16, path: &Path) -> Option<(Uid, Mode)>
        ensures { result ≡ option_map (λ r. (last_uid r.holder, r.mode)) (conflict_on x path.now mode.Exclude self.now) }
    {
        self.conflict(x, path, Mode::Exclude)
    }

    /// After the end of an action. It takes no memory.
    pub fn end(&mut self, action: Uid, end: End)
        ensures { self.new ≡ end_named action end self.old }
    {
        rows_are_one_each();
        self.made.remove(&action);
        drop_uid(&mut self.asked, action);
        match end {
            End::Commit => self.locks.pass_to_parent(action),
            End::Abort => self.locks.drop_action(action),
        }
    }

    /// A server is up in this incarnation: a live binding to an earlier one is dropped.
    pub fn hello(&mut self, node: u8, inc: u32)
        ensures { self.new ≡ hello_named node inc self.old }
    {
        if let Some(live) = self.live {
            if live.server == node && live.inc < inc {
                self.live = None;
            }
        }
    }

    /// After an end or a hello. It takes no memory.
    pub fn apply(&mut self, change: Change)
        ensures { self.new ≡ changed_by change self.old }
    {
        match change {
            Change::End { action, end } => self.end(action, end),
            Change::Hello { node, inc } => self.hello(node, inc),
        }
    }

    /// Whether the live binding is to this node.
    pub fn is_to(&self, node: u8) -> bool
        ensures { result ≡ is_to node self.now.live }
    {
        match self.live {
            Some(live) => live.server == node,
            None => false,
        }
    }

    /// The server of the binding that was made last for the top.
    pub fn made_server(&self, top: Uid) -> Option<u8>
        ensures { result ≡ option_map (λ m. m.server) (at_uid top self.now.made) }
    {
        Some(self.made.get(&top)?.server)
    }

    /// Whether it is seen that no end of the action changes the object.
    pub fn is_apart(&self, action: Uid) -> bool
        ensures { result ≡ looks_apart action self.now }
    {
        action != NOBODY
            && !self.made.contains_key(&action)
            && !is_among(&self.asked, action)
            && !self.locks.holds(action)
    }

    /// Whether the action or a descendant of it has a lock.
    pub fn holds(&self, action: Uid) -> bool
        ensures { result ≡ holds action self.now.rows }
    {
        self.locks.holds(action)
    }

    /// The tops of the locks' holders.
    pub fn tops(&self, alloc: Global) -> Result<Uids, AllocError>
        ensures { IfOk result (AreListed (map row_top self.now.rows)) }
    {
        self.locks.held(alloc)
    }

    /// The holders of the locks that an action's abort drops.
    pub fn holders_below(&self, alloc: Global, action: Uid) -> Result<Uids, AllocError>
        ensures { IfOk result (AreBelow action self.now.rows) }
    {
        self.locks.holders_below(alloc, action)
    }
}
