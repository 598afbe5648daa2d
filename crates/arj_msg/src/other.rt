// The messages without a head.
ghost use Rattle.arj_msg.specs.Layout.{told, acked, query, hello};
ghost use Rattle.std.specs.Prelude.{◌≤◌, length, ⊤};
ghost use Rattle.arj_msg.specs.InForm.{IsNode};
ghost use Rattle.arj_msg.specs.declared.message.Told.{Told};
ghost use Rattle.arj_msg.specs.declared.message.Hello.{Hello};

use crate::fault::ReadFault;
use crate::field::Field;
use crate::{Acked, Hello, Query, Told};
use arj_base::{Bytes, Ends, Uid};
use std::alloc::{AllocError, Global};

impl Field for Told {
    ghost format = { told };

    ghost sends = { λ (m : Told). length m.ends ≤ 255 };

    #[tactic(auto, unfolding(crate::specs::Layout::told))]
    fn read(alloc: Global, bytes: &[u8]) -> Result<(Told, &[u8]), ReadFault> {
        let (root, rest) = Uid::read(alloc, bytes)?;
        let (ack, rest) = bool::read(alloc, rest)?;
        let (ends, rest) = Ends::read(alloc, rest)?;
        Ok((Told { root, ack, ends }, rest))
    }

    #[tactic(auto, using(std::proofs::lemmas::List::append_assoc), unfolding(crate::specs::Layout::told))]
    fn put(&self, out: &mut Bytes) -> Result<(), AllocError> {
        self.root.put(out)?;
        self.ack.put(out)?;
        self.ends.put(out)
    }
}

impl Field for Acked {
    ghost format = { acked };

    ghost sends = { λ _. ⊤ };

    #[tactic(auto, unfolding(crate::specs::Layout::acked))]
    fn read(alloc: Global, bytes: &[u8]) -> Result<(Acked, &[u8]), ReadFault> {
        let (act, rest) = Uid::read(alloc, bytes)?;
        Ok((Acked { act }, rest))
    }

    #[tactic(auto, using(std::proofs::lemmas::List::append_assoc), unfolding(crate::specs::Layout::acked))]
    fn put(&self, out: &mut Bytes) -> Result<(), AllocError> {
        self.act.put(out)
    }
}

impl Field for Query {
    ghost format = { query };

    ghost sends = { λ _. ⊤ };

    #[tactic(auto, unfolding(crate::specs::Layout::query))]
    fn read(alloc: Global, bytes: &[u8]) -> Result<(Query, &[u8]), ReadFault> {
        let (act, rest) = Uid::read(alloc, bytes)?;
        Ok((Query { act }, rest))
    }

    #[tactic(auto, using(std::proofs::lemmas::List::append_assoc), unfolding(crate::specs::Layout::query))]
    fn put(&self, out: &mut Bytes) -> Result<(), AllocError> {
        self.act.put(out)
    }
}

impl Field for Hello {
    ghost format = { hello };

    ghost sends = { λ (m : Hello). IsNode m.node };

    #[tactic(auto, unfolding(crate::specs::Layout::hello))]
    fn read(alloc: Global, bytes: &[u8]) -> Result<(Hello, &[u8]), ReadFault> {
        let (node, rest) = u8::read(alloc, bytes)?;
        let (inc, rest) = u32::read(alloc, rest)?;
        Ok((Hello { node, inc }, rest))
    }

    #[tactic(auto, using(std::proofs::lemmas::List::append_assoc), unfolding(crate::specs::Layout::hello))]
    fn put(&self, out: &mut Bytes) -> Result<(), AllocError> {
        self.node.put(out)?;
        self.inc.put(out)
    }
}
