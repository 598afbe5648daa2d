// Naming's memory without the entries.
ghost use Rattle.std.specs.Prelude.{◌≡◌, ◌++◌, IfOk, OnOk, option_map};
ghost use Rattle.arj_base.specs.declared.uid.Uid.{Uid};
ghost use Rattle.arj_base.specs.Rows.{is_on};
ghost use Rattle.arj_lock.specs.Held.{AreListed};
ghost use Rattle.arj_naming.specs.Calls.{bind_by, note_by, bound_to, recorded_to};
ghost use Rattle.arj_naming.specs.Said.{said};
ghost use Rattle.arj_protocol.specs.Ask.{asked_by};
ghost use Rattle.arj_protocol.specs.Confirm.{confirms, recovered_lines, recovered_naming};
ghost use Rattle.arj_protocol.specs.Naming.{is_over, loses_row, has_locks, taken_end, end_locks, end_lines, hello, naming_holders};

use crate::bound::{hello_all, put_made};
use crate::counter::Counter;
use crate::entries::Entries;
use crate::lines::{NAMING_NODE, say};
use crate::object::NamedObject;
use crate::touched::{
    all_losers, all_tops, any_holds, end_under, tidy, tidy_all, tidy_path, touch_path,
    touched_first,
};
use crate::uids::{drop_uid, is_among, list_of};
use arj_base::{End, Path, Uid, Uids};
use arj_journal::{Body, Lines, Part as JournalPart};
use arj_msg::{Asked, Bind, Bound, Head, Hello, RecordMsg, Recorded, RecordedReply, What};
use std::alloc::{AllocError, Global};
use std::collections::{BTreeMap, BTreeSet};
use std::marker::Model;

/// The objects at naming, the tops that it confirmed, and the actions whose end it was told. Contracts see the protocol's
/// naming part. Each object that an end of an action may change stands under the action, so that the end looks at no other;
/// and each that is bound stands under its server, so that a hello looks at no other. An object whose call failed for want
/// of memory goes: the part isn't used again.
#[derive(Drop)]
pub struct Part {
    pub counter: Counter,
    pub objects: BTreeMap<u16, NamedObject>,
    pub touched: BTreeMap<Uid, BTreeSet<u16>>,
    pub bound: BTreeMap<u8, BTreeSet<u16>>,
    pub confirmed: BTreeSet<Uid>,
    pub told: BTreeSet<Uid>,
}

impl Model for Part {
    ghost use Rattle.arj_naming.specs.Bound.{AreIndexed};
    ghost use Rattle.arj_protocol.specs.Naming.{Naming};

    ghost Value = { Naming };

    ghost view = { λ p. record { inc = p.counter.inc; count = p.counter.count; objects = p.objects.entries; confirmed = p.confirmed.keys; told = p.told.keys } };

    ghost invariant = { λ p. AreIndexed p.objects.entries p.touched.entries p.bound.entries };
}

/// The head of an answer.
pub fn asked(head: &Head) -> Asked
    ensures { result ≡ asked_by head.now }
{
    Asked {
        act: head.path.last(),
        req: head.req,
    }
}

// An answer to who asked, if there is one.
fn recorded(head: &Head, reply: Option<RecordedReply>) -> Option<Recorded>
    ensures { result ≡ option_map (recorded_to head.now) reply }
{
    let reply = reply?;
    Some(Recorded {
        asked: asked(head),
        reply,
    })
}

impl Part {
    /// What is known in this incarnation after a restart, by these entries.
    pub fn recovered(
        alloc: Global,
        inc: u32,
        entries: &Entries,
        out: &mut Lines,
    ) -> Result<Part, AllocError>
        ensures part { IfOk result (λ part. part ≡ recovered_naming inc entries.now) }
        ensures lines { OnOk result (out.new ≡ out.old ++ said (recovered_lines (recovered_naming inc entries.now))) }
    {
        let objects = entries.objects_back(out)?;
        let touched = touched_first(alloc, &objects)?;
        let confirmed = entries.confirmed_back()?;
        Ok(Part {
            counter: Counter { inc, count: 0 },
            objects,
            touched,
            bound: BTreeMap::new(alloc),
            confirmed,
            told: BTreeSet::new(alloc),
        })
    }

    /// Whether naming was told of the end of the path's root or top.
    pub fn is_over(&self, path: &Path) -> bool
        ensures { result ≡ is_over path.now self.now }
    {
        let top = path.top_path();
        top.as_slice().iter().any(|uid| is_among(&self.told, *uid))
    }

    /// Answers a Bind. None where it is void.
    pub fn bind(
        &mut self,
        entries: &Entries,
        m: &Bind,
        out: &mut Lines,
    ) -> Result<Option<Bound>, AllocError>
        ensures part { OnOk result (self.new ≡ (bind_by m.now entries.now self.old).part) }
        ensures lines { OnOk result (out.new ≡ out.old ++ said (bind_by m.now entries.now self.old).outs) }
        ensures reply { IfOk result (λ r. r ≡ option_map (bound_to m.now.head) (bind_by m.now entries.now self.old).reply) }
    {
        if self.is_over(&m.head.path) || !self.objects.contains_key(&m.x) {
            return Ok(None);
        }
        let entry = entries.entry(m.x)?;
        touch_path(entries.allocator(), &mut self.touched, &m.head.path, m.x)?;
        let Some(object) = self.objects.get_mut(&m.x) else {
            return Ok(None);
        };
        match object.bind(&mut self.counter, m, entry, out) {
            Ok(reply) => {
                tidy_path(&self.objects, &mut self.touched, &m.head.path, m.x);
                Ok(Some(Bound {
                    asked: asked(&m.head),
                    reply,
                }))
            }
            Err(e) => {
                self.objects.remove(&m.x);
                Err(e)
            }
        }
    }

    /// Answers a Record. None where it is void.
    pub fn note(
        &mut self,
        alloc: Global,
        m: &RecordMsg,
        out: &mut Lines,
    ) -> Result<Option<Recorded>, AllocError>
        ensures part { OnOk result (self.new ≡ (note_by m.now self.old).part) }
        ensures lines { OnOk result (out.new ≡ out.old ++ said (note_by m.now self.old).outs) }
        ensures reply { IfOk result (λ r. r ≡ option_map (recorded_to m.now.head) (note_by m.now self.old).reply) }
    {
        if self.is_over(&m.head.path) || !self.objects.contains_key(&m.x) {
            return Ok(None);
        }
        if m.naming_inc != self.counter.inc {
            let changed = What::Inc {
                had: m.naming_inc,
                now: self.counter.inc,
            };
            return Ok(Some(Recorded {
                asked: asked(&m.head),
                reply: RecordedReply::Changed(changed),
            }));
        }
        let top = m.head.path.top_path().last();
        put_made(alloc, &self.objects, m.x, top, &mut self.bound)?;
        let Some(object) = self.objects.get_mut(&m.x) else {
            return Ok(None);
        };
        match object.note(m, out) {
            Ok(reply) => Ok(recorded(&m.head, reply)),
            Err(e) => {
                self.objects.remove(&m.x);
                Err(e)
            }
        }
    }

    /// Whether naming was told of the action's end.
    pub fn is_told(&self, action: Uid) -> bool
        ensures { result ≡ is_on self.now.told action }
    {
        is_among(&self.told, action)
    }

    /// Whether naming confirmed the top.
    pub fn is_confirmed(&self, top: Uid) -> bool
        ensures { result ≡ is_on self.now.confirmed top }
    {
        is_among(&self.confirmed, top)
    }

    /// The top is confirmed.
    pub fn confirm(&mut self, top: Uid) -> Result<(), AllocError>
        ensures { OnOk result (self.new ≡ confirms top self.old) }
    {
        self.confirmed.insert(top)?;
        Ok(())
    }

    /// What naming takes an end for: a commit only where it confirmed the action.
    pub fn taken_end(&self, action: Uid, end: End) -> End
        ensures { result ≡ taken_end action end self.now }
    {
        match end {
            End::Abort => End::Abort,
            End::Commit if is_among(&self.confirmed, action) => End::Commit,
            End::Commit => End::Abort,
        }
    }

    /// Whether the action or a descendant of it has a lock on an entry.
    pub fn has_locks(&self, action: Uid) -> bool
        ensures { result ≡ has_locks action self.now }
    {
        match self.touched.get(&action) {
            Some(xs) => any_holds(&self.objects, xs, action),
            None => false,
        }
    }

    /// The holders of the locks that an abort of the action drops.
    pub fn losers(&self, alloc: Global, action: Uid) -> Result<BTreeSet<Uid>, AllocError>
        ensures { IfOk result (λ losers. (act : Uid) → is_on losers.keys act ≡ loses_row action act self.now) }
    {
        match self.touched.get(&action) {
            Some(xs) => all_losers(alloc, &self.objects, xs, action),
            None => Ok(BTreeSet::new(alloc)),
        }
    }

    /// Says that the action's end came, where it has locks.
    pub fn say_told(&self, action: Uid, end: End, out: &mut Lines) -> Result<(), AllocError>
        ensures { OnOk result (out.new ≡ out.old ++ said (end_lines action end self.now)) }
    {
        if !self.has_locks(action) {
            return Ok(());
        }
        let told = Body::Told {
            node: NAMING_NODE,
            action,
            end,
            part: JournalPart::Naming,
        };
        say(out, told)
    }

    /// After the end of an action: its locks and bindings go, or pass.
    pub fn end(&mut self, alloc: Global, action: Uid, end: End) -> Result<(), AllocError>
        ensures { OnOk result (self.new ≡ end_locks action end self.old) }
    {
        let losers = self.losers(alloc, action)?;
        self.told.insert(action)?;
        end_under(&mut self.objects, &self.touched, action, end);
        tidy_all(&self.objects, &mut self.touched, &losers);
        tidy(&self.objects, &mut self.touched, action);
        drop_uid(&mut self.confirmed, action);
        Ok(())
    }

    /// A server is up again: live bindings to its earlier incarnations are dropped.
    pub fn hello(&mut self, m: &Hello)
        ensures { self.new ≡ hello m.now.node m.now.inc self.old }
    {
        hello_all(&mut self.objects, &mut self.bound, m.node, m.inc);
    }

    /// The tops of the holders of locks, each once, in increasing order.
    pub fn held(&self, alloc: Global) -> Result<Uids, AllocError>
        ensures { IfOk result (AreListed (naming_holders self.now)) }
    {
        let tops = all_tops(alloc, &self.objects, &self.touched)?;
        list_of(alloc, &tops)
    }
}
