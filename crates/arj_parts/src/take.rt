// A message is taken.
ghost use Rattle.std.specs.Prelude.{◌≡◌, true, is_some, None, IfOk, IsErrOf};
ghost use Rattle.arj_core.specs.Steps.{CountsStep};
ghost use Rattle.arj_core.specs.declared.node.CoreFault.{CoreFault};
ghost use Rattle.arj_disk.specs.Counted.{counts};
ghost use Rattle.arj_msg.specs.Ask.{asks};
ghost use Rattle.arj_msg.specs.Sendable.{IsSendable};
ghost use Rattle.arj_node.specs.Handing.{outs_of};
ghost use Rattle.arj_parts.specs.Calls.{Halts, StandsSome, Takes};
ghost use Rattle.arj_parts.specs.Taken.{handled_here, other_here, taken_here};
ghost use Rattle.arj_protocol.specs.Ask.{answers};
ghost use Rattle.arj_protocol.specs.Node.{answer_is_meant, asked_is_meant};
ghost use Rattle.arj_protocol.specs.Node as node;
ghost use Rattle.arj_serve.specs.Kept.{parts_with};

use crate::NodeParts;
use arj_asking::is_meant;
use arj_core::CoreFault;
use arj_disk::Disk;
use arj_msg::Message;
use arj_node::Outgoings;
use arj_store::ObjectStore;

// Whether the message is a request.
fn is_request(m: &Message) -> bool
    ensures { result ≡ is_some (asks m.now) }
{
    matches!(
        m,
        Message::Bind(_)
            | Message::Load(_)
            | Message::Activate(_)
            | Message::RecordMsg(_)
            | Message::Invoke(_)
            | Message::Vote(_)
            | Message::Prepare(_)
            | Message::Confirm(_)
    )
}

// Whether it is an answer. Such a one is no request.
fn is_answer(m: &Message) -> bool
    ensures answer { result ≡ is_some (answers m.now) }
    ensures no_request { result ≡ true → asks m.now ≡ None }
{
    matches!(
        m,
        Message::Bound(_)
            | Message::Loaded(_)
            | Message::Activated(_)
            | Message::Recorded(_)
            | Message::Invoked(_)
            | Message::Voted(_)
            | Message::Prepared(_)
            | Message::Confirmed(_)
    )
}

impl<O: ObjectStore> NodeParts<O> {
    // Whether what a message says can be meant here.
    fn is_meant(&self, m: &Message) -> bool
        ensures { result ≡ node.is_meant (parts_with self.now.services self.now.coord) m.now }
    {
        self.services.is_meant(m) && is_meant(&self.coord, m)
    }

    // Takes a message that is no request and no answer.
    fn take_other<D: Disk>(
        &mut self,
        disk: &mut D,
        from: u8,
        m: &Message,
        outs: &mut Outgoings,
    ) -> Result<bool, CoreFault>
        requires stands { StandsSome O.ObjectStore self.old (D.file disk.old) }
        ensures done { IfOk result (Takes O.ObjectStore (other_here from m.now) (record { old = self.old; new = self.new; file = D.file disk.old; left = D.file disk.new; before = outs.old; after = outs.new })) }
        ensures halted { IsErrOf result CoreFault.Halted → Halts O.ObjectStore (λ n h. outs_of (other_here from m.now n h)) (record { old = self.old; new = self.new; file = D.file disk.old; left = D.file disk.new; before = outs.old; after = outs.new }) }
        ensures counts { CountsStep (counts D.Disk disk.old) (counts D.Disk disk.new) result CoreFault.Halted }
    {
        match m {
            Message::Told(m) => {
                self.told(disk, from, m, outs)?;
                Ok(true)
            }
            Message::Acked(m) => self.acknowledge(disk, from, m, outs),
            Message::Query(m) => {
                self.query(disk, from, m, outs)?;
                Ok(true)
            }
            Message::Hello(m) => {
                self.hello(m, outs)?;
                Ok(true)
            }
            _ => Ok(false),
        }
    }

    // Takes a message that is no answer: a request goes to the services.
    fn take_asked<D: Disk>(
        &mut self,
        disk: &mut D,
        from: u8,
        m: &Message,
        outs: &mut Outgoings,
    ) -> Result<bool, CoreFault>
        requires stands { StandsSome O.ObjectStore self.old (D.file disk.old) }
        requires sendable { IsSendable m.now }
        requires no_answer { answers m.now ≡ None }
        requires meant { asked_is_meant self.old.services.server (asks m.now) ≡ true }
        ensures done { IfOk result (Takes O.ObjectStore (handled_here from m.now) (record { old = self.old; new = self.new; file = D.file disk.old; left = D.file disk.new; before = outs.old; after = outs.new })) }
        ensures halted { IsErrOf result CoreFault.Halted → Halts O.ObjectStore (λ n h. outs_of (handled_here from m.now n h)) (record { old = self.old; new = self.new; file = D.file disk.old; left = D.file disk.new; before = outs.old; after = outs.new }) }
        ensures counts { CountsStep (counts D.Disk disk.old) (counts D.Disk disk.new) result CoreFault.Halted }
    {
        if is_request(m) {
            return self.request(disk, from, m, outs);
        }
        self.take_other(disk, from, m, outs)
    }

    // Takes a message that is meant: an answer goes to the coordinator.
    fn take_meant<D: Disk>(
        &mut self,
        disk: &mut D,
        from: u8,
        m: Box<Message>,
        outs: &mut Outgoings,
    ) -> Result<bool, CoreFault>
        requires stands { StandsSome O.ObjectStore self.old (D.file disk.old) }
        requires sendable { IsSendable m.value }
        requires asked { asked_is_meant self.old.services.server (asks m.value) ≡ true }
        requires answered { answer_is_meant self.old.coord (answers m.value) ≡ true }
        ensures done { IfOk result (Takes O.ObjectStore (handled_here from m.value) (record { old = self.old; new = self.new; file = D.file disk.old; left = D.file disk.new; before = outs.old; after = outs.new })) }
        ensures halted { IsErrOf result CoreFault.Halted → Halts O.ObjectStore (λ n h. outs_of (handled_here from m.value n h)) (record { old = self.old; new = self.new; file = D.file disk.old; left = D.file disk.new; before = outs.old; after = outs.new }) }
        ensures counts { CountsStep (counts D.Disk disk.old) (counts D.Disk disk.new) result CoreFault.Halted }
    {
        if !is_answer(&m) {
            return self.take_asked(disk, from, &m, outs);
        }
        self.answer(disk, from, m, outs)
    }

    /// Takes a message from a node, unless it is void: a request goes to the services, an answer to the coordinator.
    pub fn take_message<D: Disk>(
        &mut self,
        disk: &mut D,
        from: u8,
        m: Box<Message>,
        outs: &mut Outgoings,
    ) -> Result<bool, CoreFault>
        requires stands { StandsSome O.ObjectStore self.old (D.file disk.old) }
        requires sendable { IsSendable m.value }
        ensures done { IfOk result (Takes O.ObjectStore (taken_here from m.value) (record { old = self.old; new = self.new; file = D.file disk.old; left = D.file disk.new; before = outs.old; after = outs.new })) }
        ensures halted { IsErrOf result CoreFault.Halted → Halts O.ObjectStore (λ n h. outs_of (taken_here from m.value n h)) (record { old = self.old; new = self.new; file = D.file disk.old; left = D.file disk.new; before = outs.old; after = outs.new }) }
        ensures counts { CountsStep (counts D.Disk disk.old) (counts D.Disk disk.new) result CoreFault.Halted }
    {
        if !self.is_meant(&m) {
            return Ok(false);
        }
        self.take_meant(disk, from, m, outs)
    }
}
