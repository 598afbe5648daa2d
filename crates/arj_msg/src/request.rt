// The requests.
ghost use Rattle.arj_msg.specs.Requests.{bind, load, activate, record_msg, invoke, vote, prepare, confirm};
ghost use Rattle.std.specs.Prelude.{◌≤◌, length};
ghost use Rattle.arj_msg.specs.InForm.{IsNode, IsObject, AreFew, AreMany};
ghost use Rattle.arj_class.specs.Forms.{OpInForm};
ghost use Rattle.arj_msg.specs.Sendable.{StateSends};
ghost use Rattle.arj_msg.specs.declared.message.Bind.{Bind};
ghost use Rattle.arj_msg.specs.declared.message.Load.{Load};
ghost use Rattle.arj_msg.specs.declared.message.Activate.{Activate};
ghost use Rattle.arj_msg.specs.declared.message.RecordMsg.{RecordMsg};
ghost use Rattle.arj_msg.specs.declared.message.Invoke.{Invoke};
ghost use Rattle.arj_msg.specs.declared.message.Vote.{Vote};
ghost use Rattle.arj_msg.specs.declared.message.Prepare.{Prepare};
ghost use Rattle.arj_msg.specs.declared.message.Confirm.{Confirm};

use crate::fault::ReadFault;
use crate::field::{Field, put_long, read_long};
use crate::{Activate, Bind, Binds, Confirm, Grants, Head, Invoke, Load, Prepare, RecordMsg, Vote};
use arj_base::{Binding, Bytes, Ends, ObjectState, States};
use arj_class::Op;
use std::alloc::{AllocError, Global};

impl Field for Bind {
    ghost format = { bind };

    ghost sends = { λ (m : Bind). IsObject m.x };

    #[tactic(auto, unfolding(crate::specs::Requests::bind))]
    fn read(alloc: Global, bytes: &[u8]) -> Result<(Bind, &[u8]), ReadFault> {
        let (head, rest) = Head::read(alloc, bytes)?;
        let (x, rest) = u16::read(alloc, rest)?;
        let (include, rest) = bool::read(alloc, rest)?;
        let (avoid, rest) = Binding::read(alloc, rest)?;
        Ok((
            Bind {
                head,
                x,
                include,
                avoid,
            },
            rest,
        ))
    }

    #[tactic(auto, using(std::proofs::lemmas::List::append_assoc), unfolding(crate::specs::Requests::bind))]
    fn put(&self, out: &mut Bytes) -> Result<(), AllocError> {
        self.head.put(out)?;
        self.x.put(out)?;
        self.include.put(out)?;
        self.avoid.put(out)
    }
}

impl Field for Load {
    ghost format = { load };

    ghost sends = { λ (m : Load). IsObject m.x };

    #[tactic(auto, unfolding(crate::specs::Requests::load))]
    fn read(alloc: Global, bytes: &[u8]) -> Result<(Load, &[u8]), ReadFault> {
        let (head, rest) = Head::read(alloc, bytes)?;
        let (x, rest) = u16::read(alloc, rest)?;
        Ok((Load { head, x }, rest))
    }

    #[tactic(auto, using(std::proofs::lemmas::List::append_assoc), unfolding(crate::specs::Requests::load))]
    fn put(&self, out: &mut Bytes) -> Result<(), AllocError> {
        self.head.put(out)?;
        self.x.put(out)
    }
}

impl Field for Activate {
    ghost format = { activate };

    ghost sends = { λ (m : Activate). StateSends m.state };

    #[tactic(auto, unfolding(crate::specs::Requests::activate))]
    fn read(alloc: Global, bytes: &[u8]) -> Result<(Activate, &[u8]), ReadFault> {
        let (head, rest) = Head::read(alloc, bytes)?;
        let (binding, rest) = Binding::read(alloc, rest)?;
        let (state, rest) = ObjectState::read(alloc, rest)?;
        Ok((
            Activate {
                head,
                binding,
                state,
            },
            rest,
        ))
    }

    #[tactic(auto, using(std::proofs::lemmas::List::append_assoc), unfolding(crate::specs::Requests::activate))]
    fn put(&self, out: &mut Bytes) -> Result<(), AllocError> {
        self.head.put(out)?;
        self.binding.put(out)?;
        self.state.put(out)
    }
}

impl Field for RecordMsg {
    ghost format = { record_msg };

    ghost sends = { λ (m : RecordMsg). IsObject m.x };

    #[tactic(auto, unfolding(crate::specs::Requests::record_msg))]
    fn read(alloc: Global, bytes: &[u8]) -> Result<(RecordMsg, &[u8]), ReadFault> {
        let (head, rest) = Head::read(alloc, bytes)?;
        let (x, rest) = u16::read(alloc, rest)?;
        let (binding, rest) = Binding::read(alloc, rest)?;
        let (server_inc, rest) = u32::read(alloc, rest)?;
        let (naming_inc, rest) = u32::read(alloc, rest)?;
        Ok((
            RecordMsg {
                head,
                x,
                binding,
                server_inc,
                naming_inc,
            },
            rest,
        ))
    }

    #[tactic(auto, using(std::proofs::lemmas::List::append_assoc), unfolding(crate::specs::Requests::record_msg))]
    fn put(&self, out: &mut Bytes) -> Result<(), AllocError> {
        self.head.put(out)?;
        self.x.put(out)?;
        self.binding.put(out)?;
        self.server_inc.put(out)?;
        self.naming_inc.put(out)
    }
}

impl Field for Invoke {
    ghost format = { invoke };

    ghost sends = { λ (m : Invoke). IsObject m.x × (length m.ends ≤ 255) × OpInForm m.op };

    #[tactic(auto, unfolding(crate::specs::Requests::invoke))]
    fn read(alloc: Global, bytes: &[u8]) -> Result<(Invoke, &[u8]), ReadFault> {
        let (head, rest) = Head::read(alloc, bytes)?;
        let (x, rest) = u16::read(alloc, rest)?;
        let (binding, rest) = Binding::read(alloc, rest)?;
        let (server_inc, rest) = u32::read(alloc, rest)?;
        let (ends, rest) = Ends::read(alloc, rest)?;
        let (op, rest) = Op::read(alloc, rest)?;
        Ok((
            Invoke {
                head,
                x,
                binding,
                server_inc,
                ends,
                op,
            },
            rest,
        ))
    }

    #[tactic(auto, using(std::proofs::lemmas::List::append_assoc), unfolding(crate::specs::Requests::invoke))]
    fn put(&self, out: &mut Bytes) -> Result<(), AllocError> {
        self.head.put(out)?;
        self.x.put(out)?;
        self.binding.put(out)?;
        self.server_inc.put(out)?;
        self.ends.put(out)?;
        self.op.put(out)
    }
}

impl Field for Vote {
    ghost format = { vote };

    ghost sends = { λ (m : Vote). AreFew (λ o. IsObject o.0) m.objects × (length m.ends ≤ 255) };

    #[tactic(auto, unfolding(crate::specs::Requests::vote))]
    fn read(alloc: Global, bytes: &[u8]) -> Result<(Vote, &[u8]), ReadFault> {
        let (head, rest) = Head::read(alloc, bytes)?;
        let (server_inc, rest) = u32::read(alloc, rest)?;
        let (objects, rest) = Binds::read(alloc, rest)?;
        let (ends, rest) = Ends::read(alloc, rest)?;
        Ok((
            Vote {
                head,
                server_inc,
                objects,
                ends,
            },
            rest,
        ))
    }

    #[tactic(auto, using(std::proofs::lemmas::List::append_assoc), unfolding(crate::specs::Requests::vote))]
    fn put(&self, out: &mut Bytes) -> Result<(), AllocError> {
        self.head.put(out)?;
        self.server_inc.put(out)?;
        self.objects.put(out)?;
        self.ends.put(out)
    }
}

impl Field for Prepare {
    ghost format = { prepare };

    ghost sends = { λ (m : Prepare). AreFew StateSends m.states };

    #[tactic(auto, unfolding(crate::specs::Requests::prepare))]
    fn read(alloc: Global, bytes: &[u8]) -> Result<(Prepare, &[u8]), ReadFault> {
        let (head, rest) = Head::read(alloc, bytes)?;
        let (states, rest) = States::read(alloc, rest)?;
        Ok((Prepare { head, states }, rest))
    }

    #[tactic(auto, using(std::proofs::lemmas::List::append_assoc), unfolding(crate::specs::Requests::prepare))]
    fn put(&self, out: &mut Bytes) -> Result<(), AllocError> {
        self.head.put(out)?;
        self.states.put(out)
    }
}

impl Field for Confirm {
    ghost format = { confirm };

    ghost sends = { λ (m : Confirm). AreFew (λ g. IsObject g.0) m.objects × AreMany (λ k. IsObject k.0 × IsNode k.1) m.excluded × AreMany (λ k. IsObject k.0 × IsNode k.1) m.included };

    #[tactic(auto, unfolding(crate::specs::Requests::confirm))]
    fn read(alloc: Global, bytes: &[u8]) -> Result<(Confirm, &[u8]), ReadFault> {
        let (head, rest) = Head::read(alloc, bytes)?;
        let (objects, rest) = Grants::read(alloc, rest)?;
        let (excluded, rest) = read_long(alloc, rest)?;
        let (included, rest) = read_long(alloc, rest)?;
        Ok((
            Confirm {
                head,
                objects,
                excluded,
                included,
            },
            rest,
        ))
    }

    #[tactic(auto, using(std::proofs::lemmas::List::append_assoc), unfolding(crate::specs::Requests::confirm))]
    fn put(&self, out: &mut Bytes) -> Result<(), AllocError> {
        self.head.put(out)?;
        self.objects.put(out)?;
        put_long(&self.excluded, out)?;
        put_long(&self.included, out)
    }
}
