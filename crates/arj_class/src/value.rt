// A value of any class.
ghost use Rattle.std.specs.Prelude.{◌≡◌, ◌≢◌, ◌≤◌, ◌↔◌, length, true, false, None, IfOk, OnOk, OnErr, IsErrOf};

use crate::{
    Account, Answer, ApplyFault, ClassFault, Counter, Gone, ObjectClass, Op, Queue, Register, Table,
};
use arj_base::{Bytes, Class, Format, Mode, is_object_class};
use std::alloc::{AllocError, Global};

/// A value of one of the five classes, or that an object of one of them is gone. A naming entry is no value here.
#[derive(Drop)]
pub enum Value {
    Counter(Counter),
    Register(Register),
    Account(Account),
    Queue(Queue),
    Table(Table),
    Gone(Gone),
}

impl Value {
    ghost use Rattle.arj_base.specs.declared.mode.Mode.TheVariants as lock_mode;
    ghost use Rattle.arj_class.specs.declared.object_class.ClassFault.TheVariants.{Payload};
    ghost use Rattle.arj_class.specs.declared.value.Value.{Value};
    ghost use Rattle.arj_class.specs.declared.op.Op.TheVariants.{Create, Destroy};
    ghost use Rattle.arj_class.specs.declared.op.ApplyFault.TheVariants.{WrongOp};
    ghost use Rattle.arj_base.specs.State.{is_object_class as is_of_objects};
    ghost use Rattle.arj_class.specs.Table.{class_of, own_class, is_gone, is_value_of, op_mode, class_mode_of, mode_of, answer_of, value_after};
    ghost use Rattle.arj_class.specs.Forms.{FormatHolds, OpInForm, ValueInForm, payload_of};

    /// The class of the value, as its packed state says it.
    pub fn class(&self) -> Class
        ensures { result ≡ class_of self.now }
    {
        match self {
            Value::Counter(_) => Class::Counter,
            Value::Register(_) => Class::Register,
            Value::Account(_) => Class::Account,
            Value::Queue(_) => Class::Queue,
            Value::Table(_) => Class::Table,
            Value::Gone(_) => Class::Gone,
        }
    }

    /// The class of the object with this value, also while it is gone.
    pub fn own_class(&self) -> Class
        ensures class { result ≡ own_class self.now }
        ensures object { is_of_objects result ≡ true }
    {
        match self {
            Value::Gone(gone) => gone.class(),
            _ => self.class(),
        }
    }

    /// Whether it says that the object is gone.
    pub fn is_gone(&self) -> bool
        ensures { result ≡ is_gone self.now }
    {
        match self {
            Value::Gone(_) => true,
            _ => false,
        }
    }

    /// Whether it is a value of this class that isn't gone.
    pub fn is_of(&self, class: Class) -> bool
        ensures { result ≡ is_value_of class self.now }
    {
        match (class, self) {
            (Class::Counter, Value::Counter(_))
            | (Class::Register, Value::Register(_))
            | (Class::Account, Value::Account(_))
            | (Class::Queue, Value::Queue(_))
            | (Class::Table, Value::Table(_)) => true,
            _ => false,
        }
    }

    /// The lock mode of an operation on objects of a class, None exactly where they lack it. A naming entry
    /// has no operation.
    pub fn mode(class: Class, op: &Op) -> Option<Mode>
        ensures { result ≡ mode_of class op.now }
    {
        match op {
            Op::Create(value) => value.is_of(class).then_some(Mode::Write),
            Op::Destroy => is_object_class(class).then_some(Mode::Write),
            _ => Value::class_mode(class, op),
        }
    }

    /// The lock mode of an operation of the class itself, None exactly where it lacks it.
    fn class_mode(class: Class, op: &Op) -> Option<Mode>
        ensures { result ≡ class_mode_of class op.now }
    {
        match class {
            Class::Entry | Class::Gone => None,
            Class::Counter => Counter::mode(op),
            Class::Register => Register::mode(op),
            Class::Account => Account::mode(op),
            Class::Queue => Queue::mode(op),
            Class::Table => Table::mode(op),
        }
    }

    /// Does an operation and answers it, as the class of the value does; an object that is gone can only come.
    pub fn apply(&mut self, op: &Op) -> Result<Answer, ApplyFault>
        requires { OpInForm op.now }
        ensures answer { IfOk result (λ a. a ≡ answer_of op.now self.old) }
        ensures value { OnOk result (self.new ≡ value_after op.now self.old) }
        ensures wrong_op { IsErrOf result WrongOp ↔ (mode_of (own_class self.old) op.now ≡ None) }
        ensures err { OnErr result (self.new ≡ self.old) }
        ensures class { own_class self.new ≡ own_class self.old }
        ensures read { op_mode op.now ≡ lock_mode.Read → self.new ≡ self.old }
    {
        match op {
            Op::Create(value) => self.create(value),
            Op::Destroy => Ok(self.destroy()),
            _ => self.apply_there(op),
        }
    }

    // Lets a gone object come.
    fn create(&mut self, value: &Value) -> Result<Answer, ApplyFault>
        ensures answer { IfOk result (λ a. a ≡ answer_of (Create value.now) self.old) }
        ensures value { OnOk result (self.new ≡ value_after (Create value.now) self.old) }
        ensures wrong_op { IsErrOf result WrongOp ↔ (is_value_of (own_class self.old) value.now ≡ false) }
        ensures err { OnErr result (self.new ≡ self.old) }
    {
        if !value.is_of(self.own_class()) {
            return Err(ApplyFault::WrongOp);
        }
        if !self.is_gone() {
            return Ok(Answer::There);
        }
        *self = value.twin()?;
        Ok(Answer::Done)
    }

    // Lets an object be gone.
    fn destroy(&mut self) -> Answer
        ensures answer { result ≡ answer_of Destroy self.old }
        ensures value { self.new ≡ value_after Destroy self.old }
        ensures object { is_of_objects (own_class self.old) ≡ true }
    {
        let class = self.own_class();
        if self.is_gone() {
            return Answer::Gone;
        }
        if let Some(gone) = Gone::new(class) {
            *self = Value::Gone(gone);
        }
        Answer::Done
    }

    // Does an operation of the class itself.
    fn apply_there(&mut self, op: &Op) -> Result<Answer, ApplyFault>
        requires { OpInForm op.now }
        ensures answer { IfOk result (λ a. a ≡ answer_of op.now self.old) }
        ensures value { OnOk result (self.new ≡ value_after op.now self.old) }
        ensures wrong_op { IsErrOf result WrongOp ↔ (class_mode_of (own_class self.old) op.now ≡ None) }
        ensures err { OnErr result (self.new ≡ self.old) }
        ensures class { own_class self.new ≡ own_class self.old }
        ensures read { op_mode op.now ≡ lock_mode.Read → self.new ≡ self.old }
    {
        match self {
            Value::Counter(counter) => counter.apply(op),
            Value::Register(register) => register.apply(op),
            Value::Account(account) => account.apply(op),
            Value::Queue(queue) => queue.apply(op),
            Value::Table(table) => table.apply(op),
            Value::Gone(gone) => match Value::class_mode(gone.class(), op) {
                Some(_) => Ok(Answer::Gone),
                None => Err(ApplyFault::WrongOp),
            },
        }
    }

    /// Each value is in form. It does nothing when it runs.
    pub(crate) fn in_form(&self)
        ensures { ValueInForm self.now }
    {
        match self {
            Value::Counter(counter) => counter.in_form(),
            Value::Register(register) => register.in_form(),
            Value::Account(account) => account.in_form(),
            Value::Queue(queue) => queue.in_form(),
            Value::Table(table) => table.in_form(),
            Value::Gone(gone) => gone.in_form(),
        }
    }

    /// The payload of the value's packed state, at most 256 bytes.
    pub fn save_state(&self, alloc: Global) -> Result<Bytes, AllocError>
        ensures payload { IfOk result (λ payload. payload ≡ payload_of self.now) }
        ensures short { IfOk result (λ payload. length payload ≤ 256) }
        ensures in_form { OnOk result (ValueInForm self.now) }
    {
        match self {
            Value::Counter(counter) => counter.save_state(alloc),
            Value::Register(register) => register.save_state(alloc),
            Value::Account(account) => account.save_state(alloc),
            Value::Queue(queue) => queue.save_state(alloc),
            Value::Table(table) => table.save_state(alloc),
            Value::Gone(gone) => gone.save_state(alloc),
        }
    }

    /// The one value of the class that is saved to these bytes and that the format holds. A naming entry is no value.
    pub fn restore_state(
        alloc: Global,
        class: Class,
        format: Format,
        payload: &[u8],
    ) -> Result<Value, ClassFault>
        ensures payload { IfOk result (λ v. payload_of v ≡ payload.now) }
        ensures class { IfOk result (λ v. class_of v ≡ class) }
        ensures in_form { IfOk result (λ v. ValueInForm v) }
        ensures held { IfOk result (λ v. FormatHolds format v) }
        ensures only { IfOk result (λ v. (w : Value) → class_of w ≡ class → ValueInForm w → payload_of w ≡ payload.now → w ≡ v) }
        ensures none { IsErrOf result Payload → (w : Value) → class_of w ≡ class → ValueInForm w → FormatHolds format w → payload_of w ≢ payload.now }
    {
        match class {
            Class::Entry => Err(ClassFault::Payload),
            Class::Counter => Ok(Value::Counter(Counter::restore_state(alloc, format, payload)?)),
            Class::Register => Ok(Value::Register(Register::restore_state(
                alloc, format, payload,
            )?)),
            Class::Account => Ok(Value::Account(Account::restore_state(alloc, format, payload)?)),
            Class::Queue => Ok(Value::Queue(Queue::restore_state(alloc, format, payload)?)),
            Class::Table => Ok(Value::Table(Table::restore_state(alloc, format, payload)?)),
            Class::Gone => Ok(Value::Gone(Gone::restore_state(payload)?)),
        }
    }

    // Another value, equal to this one, in memory from the same allocator.
    fn twin(&self) -> Result<Value, AllocError>
        ensures { IfOk result (λ value. value ≡ self.now) }
    {
        match self {
            Value::Register(register) => self.copy(register.allocator()),
            Value::Queue(queue) => self.copy(queue.allocator()),
            Value::Table(table) => self.copy(table.allocator()),
            Value::Counter(counter) => Ok(Value::Counter(counter.copy())),
            Value::Account(account) => Ok(Value::Account(account.copy())),
            Value::Gone(gone) => Ok(Value::Gone(gone.copy())),
        }
    }

    /// Another value, equal to this one.
    pub fn copy(&self, alloc: Global) -> Result<Value, AllocError>
        ensures { IfOk result (λ value. value ≡ self.now) }
    {
        match self {
            Value::Counter(counter) => Ok(Value::Counter(counter.copy())),
            Value::Register(register) => Ok(Value::Register(register.copy(alloc)?)),
            Value::Account(account) => Ok(Value::Account(account.copy())),
            Value::Queue(queue) => Ok(Value::Queue(queue.copy(alloc)?)),
            Value::Table(table) => Ok(Value::Table(table.copy(alloc)?)),
            Value::Gone(gone) => Ok(Value::Gone(gone.copy())),
        }
    }
}
