// All active objects of a server.
ghost use Rattle.std.specs.Prelude.{◌≡◌, ◌↔◌, ◌⊎◌, ℕ, true, false, [], Some, None, IfOk, IfErr, IfSome, IsSomeAnd, OnOk, OnErr, IsErrOf, option_copied, option_map, Ok};
ghost use Rattle.std.specs.BTreeMap.{is_at};
ghost use Rattle.std.specs.Map.{remove_entry};
ghost use Rattle.std.specs.Ordering.{nat_cmp};
ghost use Rattle.arj_base.specs.declared.mode.End.TheVariants as ending;
ghost use Rattle.arj_base.specs.declared.mode.Mode.{Mode};
ghost use Rattle.arj_base.specs.declared.uid.Uid.{Uid};
ghost use Rattle.arj_base.specs.Path.{uids_of};
ghost use Rattle.arj_base.specs.Rows.{last_uid};
ghost use Rattle.arj_base.specs.Uid.{object};
ghost use Rattle.arj_class.specs.declared.value.Value.{Value};
ghost use Rattle.arj_class.specs.Forms.{OpInForm};
ghost use Rattle.arj_class.specs.Table.{own_class, has_op, op_mode};
ghost use Rattle.arj_lock.specs.Held.{AreListed};
ghost use Rattle.arj_lock.specs.Requests.{conflict_with};
ghost use Rattle.arj_protocol.specs.Copy.{Copy, taken_copy, current};
ghost use Rattle.arj_protocol.specs.Order.{at_number, put_number};
ghost use Rattle.arj_protocol.specs.Words.invoked;
ghost use Rattle.arj_manager.specs.Index.{any_answers};
ghost use Rattle.arj_manager.specs.Manager.{invoke_in, ended, changed_in, holds_any, is_any_top, tops_in};
ghost use Rattle.arj_manager.specs.Ran.{grant_said, IsValueOf};
ghost use Rattle.arj_manager.specs.declared.fault.ManagerFault.TheVariants as fault;

use crate::index::{Index, NOBODY, end_known, forget, note, note_one};
use crate::tops::{in_order, tops_of};
use crate::walk::{Objects, Question, any, changed_states};
use crate::{ActiveObject, ManagerFault, Ran};
use arj_base::{Binding, End, ObjectState, Path, Seq, Uid, Uids};
use arj_class::Op;
use std::alloc::{AllocError, Global};
use std::collections::BTreeMap;
use std::marker::Model;

/// The active objects of a server by their numbers. Contracts see the protocol's copies, in increasing order of the
/// numbers.
#[derive(Drop)]
pub struct StateManager {
    objects: Objects,
    // The objects of each action that is on the path of a lock or of an overlay. So ends, votes and questions about an
    // action look at these alone.
    index: Index,
}

impl Model for StateManager {
    ghost use Rattle.arj_manager.specs.Index.{IsIndexed};
    ghost use Rattle.arj_manager.specs.Manager.{Copies};

    ghost Value = { Copies };

    ghost view = { λ m. m.objects.entries };

    ghost invariant = { λ m. IsIndexed m.index m.objects.entries };
}

impl StateManager {
    /// No object. It allocates nothing.
    pub fn new(alloc: Global) -> StateManager
        ensures { result ≡ [] }
    {
        StateManager {
            objects: BTreeMap::new(alloc),
            index: BTreeMap::new(alloc),
        }
    }

    /// Makes an object active in this state. A copy that is there goes, with its overlays and its locks.
    pub fn activate(
        &mut self,
        alloc: Global,
        x: u16,
        binding: Binding,
        state: &ObjectState,
    ) -> Result<(), ManagerFault>
        ensures copies { OnOk result (self.new ≡ put_number x (taken_copy binding state.now) self.old) }
        ensures restored { OnOk result ((v : Value) × IsValueOf state.now v) }
        ensures none { IsErrOf result fault.Payload → (v : Value) → IsValueOf state.now v → ⊥ }
        ensures faults { IfErr result (λ e. (e ≡ fault.Payload) ⊎ (e ≡ fault.Memory)) }
        ensures kept { OnErr result (self.new ≡ self.old) }
    {
        let copy = ActiveObject::activate(alloc, binding, state)?;
        note_one(&mut self.index, alloc, NOBODY, NOBODY, x)?;
        self.objects.insert(x, copy)?;
        Ok(())
    }

    /// The active copy of an object.
    pub fn copy(&self, x: u16) -> Option<&ActiveObject>
        ensures { option_copied result ≡ at_number x self.now }
    {
        self.objects.get(&x)
    }

    /// Does an operation on an object for the action with this path, in its lock. None exactly where the object isn't
    /// active.
    pub fn invoke(&mut self, x: u16, path: &Path, op: &Op) -> Result<Option<Ran>, ManagerFault>
        requires { OpInForm op.now }
        ensures copies { OnOk result ((n : ℕ) → self.new ≡ (invoke_in n path.now x op.now self.old).part) }
        ensures lines { IfOk result (λ done. IfSome done (λ ran. (n : ℕ) → (invoke_in n path.now x op.now self.old).outs ≡ grant_said n (last_uid (uids_of path.now)) (object x) ran.granted)) }
        ensures reply { IfOk result (λ done. (n : ℕ) → (invoke_in n path.now x op.now self.old).reply ≡ option_map (λ ran. invoked.Answered ran.answer) done) }
        ensures absent { (result ≡ Ok None) ↔ (at_number x self.old ≡ None) }
        ensures wrong_op { IsErrOf result fault.WrongOp ↔ IsSomeAnd (at_number x self.old) (λ c. has_op (own_class (current c.base c.stack)) op.now ≡ false) }
        ensures conflict { IfSome (at_number x self.old) (λ c. has_op (own_class (current c.base c.stack)) op.now ≡ true → IfSome (conflict_with (uids_of path.now) (object x) (op_mode op.now) c.rows) (λ met. IsErrOf result (fault.Conflict met.0 met.1))) }
        ensures named { (holder : Uid) (held : Mode) → IsErrOf result (fault.Conflict holder held) → (n : ℕ) → (invoke_in n path.now x op.now self.old).reply ≡ Some (invoked.Conflict holder held) }
        ensures restored { IsErrOf result fault.Payload → ⊥ }
        ensures kept { OnErr result (self.new ≡ self.old) }
    {
        let Some(object) = self.objects.get_mut(&x) else {
            return Ok(None);
        };
        let mode = object.check(x, path, op)?;
        note(&mut self.index, object.allocator(), path, x)?;
        let ran = object.run(x, path, op, mode)?;
        Ok(Some(ran))
    }

    // Each object after an action's end.
    fn end(&mut self, action: Uid, end: End)
        ensures { self.new ≡ ended action end self.old }
    {
        end_known(&mut self.objects, self.index.get(&action), action, end);
        forget(&mut self.index, &self.objects, action);
    }

    /// Each object after an action's commit. It takes no memory, and looks at the objects that the action uses.
    pub fn commit(&mut self, action: Uid)
        ensures { self.new ≡ ended action ending.Commit self.old }
    {
        self.end(action, End::Commit);
    }

    /// Each object after an action's abort. It takes no memory, and looks at the objects that the action uses.
    pub fn abort(&mut self, action: Uid)
        ensures { self.new ≡ ended action ending.Abort self.old }
    {
        self.end(action, End::Abort);
    }

    /// The states that a top made, in increasing order of the objects.
    pub fn changed_states(&self, alloc: Global, top: Uid) -> Result<Seq<ObjectState>, AllocError>
        ensures { IfOk result (λ states. states ≡ changed_in top self.now) }
    {
        let Some(known) = self.index.get(&top) else {
            return Ok(Seq::new(alloc));
        };
        changed_states(alloc, &self.objects, &known.objects, top)
    }

    /// Lets an object's copy go, with its overlays and its locks.
    pub fn deactivate(&mut self, x: u16)
        ensures { self.new ≡ remove_entry (is_at (nat_cmp x)) self.old }
    {
        self.objects.remove(&x);
    }

    // Whether some object answers yes.
    fn any(&self, question: Question, action: Uid) -> bool
        ensures { result ≡ any_answers question action self.now }
    {
        let Some(known) = self.index.get(&action) else {
            return false;
        };
        any(&self.objects, &known.objects, question, action)
    }

    /// Whether the action or a descendant of it has a lock.
    pub fn holds(&self, action: Uid) -> bool
        ensures { result ≡ holds_any action self.now }
    {
        self.any(Question::Holds, action)
    }

    /// Whether the action is the top of a lock's holder, or the serializing action above that top.
    pub fn is_top(&self, action: Uid) -> bool
        ensures { result ≡ is_any_top action self.now }
    {
        self.any(Question::Tops, action)
    }

    /// The tops of the holders of all locks, each once, in increasing order. A serializing action counts as its own top.
    /// It looks at all objects.
    pub fn held(&self, alloc: Global) -> Result<Uids, AllocError>
        ensures { IfOk result (λ tops. AreListed (tops_in self.now) tops) }
    {
        let tops = tops_of(alloc, &self.objects)?;
        in_order(alloc, tops.as_slice())
    }
}
