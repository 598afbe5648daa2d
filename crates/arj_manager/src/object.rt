// One active object.
ghost use Rattle.std.specs.Prelude.{◌≡◌, ◌↔◌, ◌⊎◌, ℕ, true, false, [], Some, None, IfOk, IfErr, OnOk, OnErr, IfSome, IsErrOf, option_map};
ghost use Rattle.arj_base.specs.declared.mode.End.TheVariants as ending;
ghost use Rattle.arj_base.specs.declared.mode.Mode.{Mode};
ghost use Rattle.arj_base.specs.declared.state.ObjectState.{ObjectState};
ghost use Rattle.arj_base.specs.declared.uid.Uid.{Uid};
ghost use Rattle.arj_base.specs.Path.{uids_of, tops_of};
ghost use Rattle.arj_base.specs.Rows.{last_uid, first_conflict};
ghost use Rattle.arj_base.specs.Uid.{object};
ghost use Rattle.arj_class.specs.declared.value.Value.{Value};
ghost use Rattle.arj_class.specs.Forms.{OpInForm};
ghost use Rattle.arj_class.specs.Table.{own_class, has_op, op_mode, is_write, writes, answer_of, value_after};
ghost use Rattle.arj_lock.specs.Exclusion.{IsOneEach};
ghost use Rattle.arj_lock.specs.Held.{AreTops};
ghost use Rattle.arj_lock.specs.Requests.{conflict_with};
ghost use Rattle.arj_protocol.specs.Copy.{taken_copy, current, invoke_copy, end_copy, changed_state, holds, is_top_over, over_of, overs_committed, rows_asked, row_for, grant_lines};
ghost use Rattle.arj_protocol.specs.Values.{state_value};
ghost use Rattle.arj_protocol.specs.Words.invoked;
ghost use Rattle.arj_manager.specs.Index.{answer_on, touches};
ghost use Rattle.arj_manager.specs.Ran.{grant_said, IsValueOf, MayRun, IsRun};
ghost use Rattle.arj_manager.specs.declared.fault.ManagerFault.TheVariants as fault;

use crate::index::NOBODY;
use crate::overlay::{Overlay, fold, is_on_any, is_top_of, own, take_own, undo, write};
use crate::walk::Question;
use crate::{ManagerFault, Ran};
use arj_base::{
    Binding, End, Format, Mode, ObjectState, Path, Uid, Uids, next_version, object_uid,
};
use arj_class::{Answer, ClassFault, Op, Value};
use arj_lock::{LockTable, rows_are_one_each};
use arj_protocol::payloads_read_back;
use std::alloc::{AllocError, Global};
use std::marker::Model;

/// An active copy of an object: the state that was activated or last committed here, over it what the open actions
/// wrote, and the locks on it. Contracts see it as the protocol's copy.
#[derive(Drop)]
pub struct ActiveObject {
    binding: Binding,
    value: Value,
    version: u64,
    writer: Uid,
    stack: Vec<Overlay>,
    locks: LockTable,
}

impl Model for ActiveObject {
    ghost use Rattle.arj_protocol.specs.Copy.{Copy};
    ghost use Rattle.arj_lock.specs.Exclusion.{IsOneEach};
    ghost use Rattle.arj_manager.specs.Stack.{stack_of};

    ghost Value = { Copy };

    ghost view = { λ o. record { binding = o.binding; base = record { value = o.value; version = o.version; writer = o.writer }; stack = stack_of o.stack.items; rows = o.locks } };

    ghost invariant = { λ o. IsOneEach o.locks };
}

impl ActiveObject {
    /// The copy that a state is, without an overlay and without a lock.
    pub fn activate(
        alloc: Global,
        binding: Binding,
        state: &ObjectState,
    ) -> Result<ActiveObject, ManagerFault>
        ensures copy { IfOk result (λ copy. copy ≡ taken_copy binding state.now) }
        ensures restored { IfOk result (λ copy. IsValueOf state.now copy.base.value) }
        ensures none { IsErrOf result fault.Payload → (v : Value) → IsValueOf state.now v → ⊥ }
        ensures faults { IfErr result (λ e. (e ≡ fault.Payload) ⊎ (e ≡ fault.Memory)) }
    {
        rows_are_one_each();
        let value = restore(alloc, state)?;
        Ok(ActiveObject {
            binding,
            value,
            version: state.version,
            writer: state.writer,
            stack: Vec::new(alloc),
            locks: LockTable::new(alloc),
        })
    }

    /// The binding by which it is active.
    pub fn binding(&self) -> Binding
        ensures { result ≡ self.now.binding }
    {
        self.binding
    }

    /// The value in place: what the deepest overlay has, or the state.
    pub fn current(&self) -> &Value
        ensures { result.now ≡ current self.now.base self.now.stack }
    {
        match self.stack.first() {
            Some(overlay) => &overlay.value,
            None => &self.value,
        }
    }

    /// Does an operation for the action with this path, in its lock.
    pub fn invoke(&mut self, x: u16, path: &Path, op: &Op) -> Result<Ran, ManagerFault>
        requires { OpInForm op.now }
        ensures part { OnOk result ((n : ℕ) → self.new ≡ (invoke_copy n path.now x op.now self.old).part) }
        ensures outs { IfOk result (λ ran. (n : ℕ) → (invoke_copy n path.now x op.now self.old).outs ≡ grant_said n (last_uid (uids_of path.now)) (object x) ran.granted) }
        ensures reply { IfOk result (λ ran. (n : ℕ) → (invoke_copy n path.now x op.now self.old).reply ≡ Some (invoked.Answered ran.answer)) }
        ensures wrong_op { IsErrOf result fault.WrongOp ↔ (has_op (own_class (current self.old.base self.old.stack)) op.now ≡ false) }
        ensures conflict { has_op (own_class (current self.old.base self.old.stack)) op.now ≡ true → IfSome (conflict_with (uids_of path.now) (object x) (op_mode op.now) self.old.rows) (λ met. IsErrOf result (fault.Conflict met.0 met.1)) }
        ensures named { (holder : Uid) (held : Mode) → IsErrOf result (fault.Conflict holder held) → (n : ℕ) → (invoke_copy n path.now x op.now self.old).reply ≡ Some (invoked.Conflict holder held) }
        ensures restored { IsErrOf result fault.Payload → ⊥ }
        ensures kept { OnErr result (self.new ≡ self.old) }
    {
        let mode = self.check(x, path, op)?;
        Ok(self.run(x, path, op, mode)?)
    }

    /// Whether the action with this path may do an operation: the object's class has it, and no lock is against it. The
    /// operation's mode, or the fault.
    pub fn check(&self, x: u16, path: &Path, op: &Op) -> Result<Mode, ManagerFault>
        requires { OpInForm op.now }
        ensures may { OnOk result (MayRun path.now x op.now self.now) }
        ensures mode { IfOk result (λ mode. mode ≡ op_mode op.now) }
        ensures wrong_op { IsErrOf result fault.WrongOp ↔ (has_op (own_class (current self.now.base self.now.stack)) op.now ≡ false) }
        ensures conflict { has_op (own_class (current self.now.base self.now.stack)) op.now ≡ true → IfSome (conflict_with (uids_of path.now) (object x) (op_mode op.now) self.now.rows) (λ met. IsErrOf result (fault.Conflict met.0 met.1)) }
        ensures named { (holder : Uid) (held : Mode) → IsErrOf result (fault.Conflict holder held) → (n : ℕ) → (invoke_copy n path.now x op.now self.now).reply ≡ Some (invoked.Conflict holder held) }
        ensures faults { IsErrOf result fault.Memory → ⊥ }
        ensures restored { IsErrOf result fault.Payload → ⊥ }
    {
        let Some(mode) = Value::mode(self.current().own_class(), op) else {
            return Err(ManagerFault::WrongOp);
        };
        match self.locks.conflict(path, object_uid(x), mode) {
            Some((holder, mode)) => Err(ManagerFault::Conflict { holder, mode }),
            None => Ok(mode),
        }
    }

    /// Does an operation that may be done, in its lock.
    pub fn run(&mut self, x: u16, path: &Path, op: &Op, mode: Mode) -> Result<Ran, AllocError>
        requires may { MayRun path.now x op.now self.old }
        requires mode { mode ≡ op_mode op.now }
        ensures ran { IfOk result (λ ran. IsRun path.now x op.now self.old self.new ran) }
        ensures kept { OnErr result (self.new ≡ self.old) }
    {
        if is_write(mode) {
            self.write(x, path, op, mode)
        } else {
            self.read(x, path, op, mode)
        }
    }

    /// The state that a top made of the object: the value of its own overlay, one version on. None where it has none.
    pub fn changed_state(
        &self,
        alloc: Global,
        top: Uid,
        x: u16,
    ) -> Result<Option<ObjectState>, AllocError>
        ensures { IfOk result (λ state. state ≡ changed_state top x self.now) }
    {
        let Some(overlay) = own(self.stack.as_slice(), top) else {
            return Ok(None);
        };
        Ok(Some(ObjectState {
            uid: object_uid(x),
            class: overlay.value.class(),
            version: next_version(self.version),
            writer: top,
            payload: overlay.value.save_state(alloc)?,
            format: Format::Two,
        }))
    }

    // Writes in the action's lock.
    fn write(&mut self, x: u16, path: &Path, op: &Op, mode: Mode) -> Result<Ran, AllocError>
        requires may { MayRun path.now x op.now self.old }
        requires mode { mode ≡ op_mode op.now }
        requires writes { writes op.now ≡ true }
        ensures ran { IfOk result (λ ran. IsRun path.now x op.now self.old self.new ran) }
        ensures kept { OnErr result (self.new ≡ self.old) }
    {
        let (answer, value) = apply(*self.stack.allocator(), self.current(), op)?;
        self.stack.reserve(1)?;
        let granted = grant(&mut self.locks, path, x, mode)?;
        write(&mut self.stack, path, value);
        Ok(Ran { answer, granted })
    }

    // Reads in the action's lock.
    fn read(&mut self, x: u16, path: &Path, op: &Op, mode: Mode) -> Result<Ran, AllocError>
        requires may { MayRun path.now x op.now self.old }
        requires mode { mode ≡ op_mode op.now }
        requires reads { writes op.now ≡ false }
        ensures ran { IfOk result (λ ran. IsRun path.now x op.now self.old self.new ran) }
        ensures kept { OnErr result (self.new ≡ self.old) }
    {
        let (answer, _) = apply(*self.stack.allocator(), self.current(), op)?;
        let granted = grant(&mut self.locks, path, x, mode)?;
        Ok(Ran { answer, granted })
    }

    // A top's overlay becomes the state.
    fn settle(&mut self, action: Uid)
        requires { option_map is_top_over (over_of action self.old.stack) ≡ Some true }
        ensures { self.new ≡ overs_committed action (over_of action self.old.stack) self.old }
    {
        if let Some(value) = take_own(&mut self.stack, action) {
            self.value = value;
            self.version = next_version(self.version);
            self.writer = action;
        }
    }

    /// A nested commit or a top's: a top's overlay becomes the state, a nested action's goes to its parent, and the
    /// locks pass. It takes no memory.
    pub fn commit(&mut self, action: Uid)
        ensures { self.new ≡ end_copy action ending.Commit self.old }
    {
        rows_are_one_each();
        match is_top_of(self.stack.as_slice(), action) {
            Some(true) => self.settle(action),
            Some(false) => fold(&mut self.stack, action),
            None => {}
        }
        self.locks.pass_to_parent(action);
    }

    /// An abort: the overlays and the locks of the action and of its descendants go. It takes no memory.
    pub fn abort(&mut self, action: Uid)
        ensures { self.new ≡ end_copy action ending.Abort self.old }
    {
        rows_are_one_each();
        undo(&mut self.stack, action);
        self.locks.drop_action(action);
    }

    /// The object after an end. It takes no memory.
    pub fn end(&mut self, action: Uid, end: End)
        ensures { self.new ≡ end_copy action end self.old }
    {
        match end {
            End::Commit => self.commit(action),
            End::Abort => self.abort(action),
        }
    }

    /// Whether the action or a descendant of it has a lock.
    pub fn holds(&self, action: Uid) -> bool
        ensures { result ≡ holds action self.now.rows }
    {
        self.locks.holds(action)
    }

    /// The tops of the holders of its locks, each once, in increasing order.
    pub fn held(&self, alloc: Global) -> Result<Uids, AllocError>
        ensures { IfOk result (λ tops. AreTops self.now.rows tops) }
    {
        self.locks.held(alloc)
    }

    /// What it answers about an action.
    pub fn answers(&self, question: Question, action: Uid) -> bool
        ensures { result ≡ answer_on question action self.now }
    {
        match question {
            Question::Holds => self.holds(action),
            Question::Tops => self.locks.is_top(action),
            Question::Uses => self.is_used(action),
        }
    }

    // Whether the action is on the path of a lock or of an overlay; nobody is taken to be.
    fn is_used(&self, action: Uid) -> bool
        ensures { result ≡ touches action self.now }
    {
        action == NOBODY || self.locks.holds(action) || is_on_any(self.stack.as_slice(), action)
    }

    /// Where its memory comes from.
    pub fn allocator(&self) -> Global {
        *self.stack.allocator()
    }
}

// Whether the mode is write.
fn is_write(mode: Mode) -> bool
    ensures { result ≡ is_write mode }
{
    matches!(mode, Mode::Write)
}

// The value of a state.
fn restore(alloc: Global, state: &ObjectState) -> Result<Value, ManagerFault>
    ensures value { IfOk result (λ v. (v ≡ state_value state.now) × IsValueOf state.now v) }
    ensures none { IsErrOf result fault.Payload → (v : Value) → IsValueOf state.now v → ⊥ }
    ensures faults { IfErr result (λ e. (e ≡ fault.Payload) ⊎ (e ≡ fault.Memory)) }
{
    payloads_read_back();
    match Value::restore_state(alloc, state.class, state.format, state.payload.as_slice()) {
        Ok(value) => Ok(value),
        Err(ClassFault::Payload) => Err(ManagerFault::Payload),
        Err(ClassFault::Memory) => Err(ManagerFault::Memory),
    }
}

// What an operation answers, and the value after it.
fn apply(alloc: Global, value: &Value, op: &Op) -> Result<(Answer, Value), AllocError>
    requires form { OpInForm op.now }
    requires has { has_op (own_class value.now) op.now ≡ true }
    ensures { IfOk result (λ r. (r.0 ≡ answer_of op.now value.now) × (r.1 ≡ value_after op.now value.now)) }
{
    let mut value = value.copy(alloc)?;
    match value.apply(op) {
        Ok(answer) => Ok((answer, value)),
        Err(_) => Err(AllocError),
    }
}

// Grants a lock that is free, and gives its mode where the action's mode rose.
fn grant(locks: &mut LockTable, path: &Path, x: u16, mode: Mode) -> Result<Option<Mode>, AllocError>
    requires one_each { IsOneEach locks.old }
    requires free { first_conflict (uids_of path.now) (object x) mode locks.old ≡ None }
    ensures rows { OnOk result (locks.new ≡ rows_asked (row_for (object x) (uids_of path.now) (tops_of path.now) mode) locks.old) }
    ensures lines { IfOk result (λ granted. (n : ℕ) → grant_lines n (row_for (object x) (uids_of path.now) (tops_of path.now) mode) locks.old ≡ grant_said n (last_uid (uids_of path.now)) (object x) granted) }
    ensures one_each { IsOneEach locks.new }
    ensures kept { OnErr result (locks.new ≡ locks.old) }
{
    rows_are_one_each();
    let rose = locks.grant(path, object_uid(x), mode)?;
    Ok(rose.then_some(mode))
}
