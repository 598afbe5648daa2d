// The answers.
ghost use Rattle.arj_msg.specs.Answers.{bound, loaded, activated, recorded, invoked, voted, prepared, confirmed};
ghost use Rattle.std.specs.Prelude.{⊤};
ghost use Rattle.arj_msg.specs.Sendable.{BoundSends, LoadedSends, InvokedSends, VotedSends, PreparedSends, ConfirmedSends};
ghost use Rattle.arj_msg.specs.declared.message.Bound.{Bound};
ghost use Rattle.arj_msg.specs.declared.message.Loaded.{Loaded};
ghost use Rattle.arj_msg.specs.declared.message.Invoked.{Invoked};
ghost use Rattle.arj_msg.specs.declared.message.Voted.{Voted};
ghost use Rattle.arj_msg.specs.declared.message.Prepared.{Prepared};
ghost use Rattle.arj_msg.specs.declared.message.Confirmed.{Confirmed};

use crate::fault::ReadFault;
use crate::field::Field;
use crate::{
    Activated, Asked, Bound, BoundReply, Confirmed, ConfirmedReply, Invoked, InvokedReply, Loaded,
    LoadedReply, Prepared, PreparedReply, Recorded, RecordedReply, Voted, VotedReply,
};
use arj_base::Bytes;
use std::alloc::{AllocError, Global};

impl Field for Bound {
    ghost format = { bound };

    ghost sends = { λ (m : Bound). BoundSends m.reply };

    #[tactic(auto, unfolding(crate::specs::Answers::bound))]
    fn read(alloc: Global, bytes: &[u8]) -> Result<(Bound, &[u8]), ReadFault> {
        let (asked, rest) = Asked::read(alloc, bytes)?;
        let (reply, rest) = BoundReply::read(alloc, rest)?;
        Ok((Bound { asked, reply }, rest))
    }

    #[tactic(auto, using(std::proofs::lemmas::List::append_assoc), unfolding(crate::specs::Answers::bound))]
    fn put(&self, out: &mut Bytes) -> Result<(), AllocError> {
        self.asked.put(out)?;
        self.reply.put(out)
    }
}

impl Field for Loaded {
    ghost format = { loaded };

    ghost sends = { λ (m : Loaded). LoadedSends m.reply };

    #[tactic(auto, unfolding(crate::specs::Answers::loaded))]
    fn read(alloc: Global, bytes: &[u8]) -> Result<(Loaded, &[u8]), ReadFault> {
        let (asked, rest) = Asked::read(alloc, bytes)?;
        let (reply, rest) = LoadedReply::read(alloc, rest)?;
        Ok((Loaded { asked, reply }, rest))
    }

    #[tactic(auto, using(std::proofs::lemmas::List::append_assoc), unfolding(crate::specs::Answers::loaded))]
    fn put(&self, out: &mut Bytes) -> Result<(), AllocError> {
        self.asked.put(out)?;
        self.reply.put(out)
    }
}

impl Field for Activated {
    ghost format = { activated };

    ghost sends = { λ _. ⊤ };

    #[tactic(auto, unfolding(crate::specs::Answers::activated))]
    fn read(alloc: Global, bytes: &[u8]) -> Result<(Activated, &[u8]), ReadFault> {
        let (asked, rest) = Asked::read(alloc, bytes)?;
        let (server_inc, rest) = u32::read(alloc, rest)?;
        Ok((Activated { asked, server_inc }, rest))
    }

    #[tactic(auto, using(std::proofs::lemmas::List::append_assoc), unfolding(crate::specs::Answers::activated))]
    fn put(&self, out: &mut Bytes) -> Result<(), AllocError> {
        self.asked.put(out)?;
        self.server_inc.put(out)
    }
}

impl Field for Recorded {
    ghost format = { recorded };

    ghost sends = { λ _. ⊤ };

    #[tactic(auto, unfolding(crate::specs::Answers::recorded))]
    fn read(alloc: Global, bytes: &[u8]) -> Result<(Recorded, &[u8]), ReadFault> {
        let (asked, rest) = Asked::read(alloc, bytes)?;
        let (reply, rest) = RecordedReply::read(alloc, rest)?;
        Ok((Recorded { asked, reply }, rest))
    }

    #[tactic(auto, using(std::proofs::lemmas::List::append_assoc), unfolding(crate::specs::Answers::recorded))]
    fn put(&self, out: &mut Bytes) -> Result<(), AllocError> {
        self.asked.put(out)?;
        self.reply.put(out)
    }
}

impl Field for Invoked {
    ghost format = { invoked };

    ghost sends = { λ (m : Invoked). InvokedSends m.reply };

    #[tactic(auto, unfolding(crate::specs::Answers::invoked))]
    fn read(alloc: Global, bytes: &[u8]) -> Result<(Invoked, &[u8]), ReadFault> {
        let (asked, rest) = Asked::read(alloc, bytes)?;
        let (reply, rest) = InvokedReply::read(alloc, rest)?;
        Ok((Invoked { asked, reply }, rest))
    }

    #[tactic(auto, using(std::proofs::lemmas::List::append_assoc), unfolding(crate::specs::Answers::invoked))]
    fn put(&self, out: &mut Bytes) -> Result<(), AllocError> {
        self.asked.put(out)?;
        self.reply.put(out)
    }
}

impl Field for Voted {
    ghost format = { voted };

    ghost sends = { λ (m : Voted). VotedSends m.reply };

    #[tactic(auto, unfolding(crate::specs::Answers::voted))]
    fn read(alloc: Global, bytes: &[u8]) -> Result<(Voted, &[u8]), ReadFault> {
        let (asked, rest) = Asked::read(alloc, bytes)?;
        let (reply, rest) = VotedReply::read(alloc, rest)?;
        Ok((Voted { asked, reply }, rest))
    }

    #[tactic(auto, using(std::proofs::lemmas::List::append_assoc), unfolding(crate::specs::Answers::voted))]
    fn put(&self, out: &mut Bytes) -> Result<(), AllocError> {
        self.asked.put(out)?;
        self.reply.put(out)
    }
}

impl Field for Prepared {
    ghost format = { prepared };

    ghost sends = { λ (m : Prepared). PreparedSends m.reply };

    #[tactic(auto, unfolding(crate::specs::Answers::prepared))]
    fn read(alloc: Global, bytes: &[u8]) -> Result<(Prepared, &[u8]), ReadFault> {
        let (asked, rest) = Asked::read(alloc, bytes)?;
        let (reply, rest) = PreparedReply::read(alloc, rest)?;
        Ok((Prepared { asked, reply }, rest))
    }

    #[tactic(auto, using(std::proofs::lemmas::List::append_assoc), unfolding(crate::specs::Answers::prepared))]
    fn put(&self, out: &mut Bytes) -> Result<(), AllocError> {
        self.asked.put(out)?;
        self.reply.put(out)
    }
}

impl Field for Confirmed {
    ghost format = { confirmed };

    ghost sends = { λ (m : Confirmed). ConfirmedSends m.reply };

    #[tactic(auto, unfolding(crate::specs::Answers::confirmed))]
    fn read(alloc: Global, bytes: &[u8]) -> Result<(Confirmed, &[u8]), ReadFault> {
        let (asked, rest) = Asked::read(alloc, bytes)?;
        let (reply, rest) = ConfirmedReply::read(alloc, rest)?;
        Ok((Confirmed { asked, reply }, rest))
    }

    #[tactic(auto, using(std::proofs::lemmas::List::append_assoc), unfolding(crate::specs::Answers::confirmed))]
    fn put(&self, out: &mut Bytes) -> Result<(), AllocError> {
        self.asked.put(out)?;
        self.reply.put(out)
    }
}
