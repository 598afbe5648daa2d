// What is answered.
ghost use Rattle.arj_msg.specs.Replies.{changed, bound_reply, loaded_reply, recorded_reply, invoked_reply, voted_reply, prepared_reply, confirmed_reply};
ghost use Rattle.std.specs.Prelude.{⊤};
ghost use Rattle.arj_msg.specs.Sendable.{BoundSends, LoadedSends, InvokedSends, VotedSends, PreparedSends, ConfirmedSends};

use crate::fault::ReadFault;
use crate::field::{Field, read_byte};
use crate::{
    BoundReply, ConfirmedReply, InvokedReply, LoadedReply, PreparedReply, RecordedReply,
    VotedReply, What,
};
use arj_base::{Binding, Bytes, Mode, NodeList, ObjectState, States, Uid};
use arj_class::Answer;
use std::alloc::{AllocError, Global};

impl Field for What {
    ghost format = { changed };

    ghost sends = { λ _. ⊤ };

    #[tactic(auto, unfolding(crate::specs::Replies::changed, crate::specs::Format::nothing, crate::specs::Format::byte))]
    fn read(alloc: Global, bytes: &[u8]) -> Result<(What, &[u8]), ReadFault> {
        let (code, rest) = read_byte(bytes, 0, 1)?;
        match code {
            0 => {
                let (had, rest) = u32::read(alloc, rest)?;
                let (now, rest) = u32::read(alloc, rest)?;
                Ok((What::Inc { had, now }, rest))
            }
            1 => {
                let (had, rest) = Binding::read(alloc, rest)?;
                let (now, rest) = Binding::read(alloc, rest)?;
                Ok((What::Bind { had, now }, rest))
            }
            _ => Err(ReadFault::Left(bytes.len())),
        }
    }

    #[tactic(auto, using(std::proofs::lemmas::List::append_assoc), unfolding(crate::specs::Replies::changed, crate::specs::Format::nothing))]
    fn put(&self, out: &mut Bytes) -> Result<(), AllocError> {
        match self {
            What::Inc { had, now } => {
                out.push(0)?;
                had.put(out)?;
                now.put(out)
            }
            What::Bind { had, now } => {
                out.push(1)?;
                had.put(out)?;
                now.put(out)
            }
        }
    }
}

impl Field for BoundReply {
    ghost format = { bound_reply };

    ghost sends = { BoundSends };

    #[tactic(auto, unfolding(crate::specs::Replies::bound_reply, crate::specs::Format::nothing, crate::specs::Format::byte))]
    fn read(alloc: Global, bytes: &[u8]) -> Result<(BoundReply, &[u8]), ReadFault> {
        let (code, rest) = read_byte(bytes, 0, 3)?;
        match code {
            0 => {
                let (binding, rest) = Binding::read(alloc, rest)?;
                let (server, rest) = u8::read(alloc, rest)?;
                let (server_inc, rest) = u32::read(alloc, rest)?;
                let (naming_inc, rest) = u32::read(alloc, rest)?;
                let (stores, rest) = NodeList::read(alloc, rest)?;
                Ok((
                    BoundReply::Live {
                        binding,
                        server,
                        server_inc,
                        naming_inc,
                        stores,
                    },
                    rest,
                ))
            }
            1 => {
                let (binding, rest) = Binding::read(alloc, rest)?;
                let (server, rest) = u8::read(alloc, rest)?;
                let (naming_inc, rest) = u32::read(alloc, rest)?;
                let (stores, rest) = NodeList::read(alloc, rest)?;
                Ok((
                    BoundReply::Make {
                        binding,
                        server,
                        naming_inc,
                        stores,
                    },
                    rest,
                ))
            }
            2 => {
                let (naming_inc, rest) = u32::read(alloc, rest)?;
                let (stores, rest) = NodeList::read(alloc, rest)?;
                Ok((BoundReply::Write { naming_inc, stores }, rest))
            }
            3 => {
                let (holder, rest) = Uid::read(alloc, rest)?;
                let (mode, rest) = Mode::read(alloc, rest)?;
                Ok((BoundReply::Conflict { holder, mode }, rest))
            }
            _ => Err(ReadFault::Left(bytes.len())),
        }
    }

    #[tactic(auto, using(std::proofs::lemmas::List::append_assoc), unfolding(crate::specs::Replies::bound_reply, crate::specs::Format::nothing))]
    fn put(&self, out: &mut Bytes) -> Result<(), AllocError> {
        match self {
            BoundReply::Live {
                binding,
                server,
                server_inc,
                naming_inc,
                stores,
            } => {
                out.push(0)?;
                binding.put(out)?;
                server.put(out)?;
                server_inc.put(out)?;
                naming_inc.put(out)?;
                stores.put(out)
            }
            BoundReply::Make {
                binding,
                server,
                naming_inc,
                stores,
            } => {
                out.push(1)?;
                binding.put(out)?;
                server.put(out)?;
                naming_inc.put(out)?;
                stores.put(out)
            }
            BoundReply::Write { naming_inc, stores } => {
                out.push(2)?;
                naming_inc.put(out)?;
                stores.put(out)
            }
            BoundReply::Conflict { holder, mode } => {
                out.push(3)?;
                holder.put(out)?;
                mode.put(out)
            }
        }
    }
}

impl Field for LoadedReply {
    ghost format = { loaded_reply };

    ghost sends = { LoadedSends };

    #[tactic(auto, unfolding(crate::specs::Replies::loaded_reply, crate::specs::Format::nothing, crate::specs::Format::byte))]
    fn read(alloc: Global, bytes: &[u8]) -> Result<(LoadedReply, &[u8]), ReadFault> {
        let (code, rest) = read_byte(bytes, 0, 1)?;
        match code {
            0 => {
                let (state, rest) = ObjectState::read(alloc, rest)?;
                Ok((LoadedReply::State(state), rest))
            }
            1 => {
                let (holder, rest) = Uid::read(alloc, rest)?;
                Ok((LoadedReply::InDoubt { holder }, rest))
            }
            _ => Err(ReadFault::Left(bytes.len())),
        }
    }

    #[tactic(auto, using(std::proofs::lemmas::List::append_assoc), unfolding(crate::specs::Replies::loaded_reply, crate::specs::Format::nothing))]
    fn put(&self, out: &mut Bytes) -> Result<(), AllocError> {
        match self {
            LoadedReply::State(state) => {
                out.push(0)?;
                state.put(out)
            }
            LoadedReply::InDoubt { holder } => {
                out.push(1)?;
                holder.put(out)
            }
        }
    }
}

impl Field for RecordedReply {
    ghost format = { recorded_reply };

    ghost sends = { λ _. ⊤ };

    #[tactic(auto, unfolding(crate::specs::Replies::recorded_reply, crate::specs::Format::nothing, crate::specs::Format::byte))]
    fn read(alloc: Global, bytes: &[u8]) -> Result<(RecordedReply, &[u8]), ReadFault> {
        let (code, rest) = read_byte(bytes, 0, 1)?;
        match code {
            0 => Ok((RecordedReply::Yes, rest)),
            1 => {
                let (what, rest) = What::read(alloc, rest)?;
                Ok((RecordedReply::Changed(what), rest))
            }
            _ => Err(ReadFault::Left(bytes.len())),
        }
    }

    #[tactic(auto, using(std::proofs::lemmas::List::append_assoc), unfolding(crate::specs::Replies::recorded_reply, crate::specs::Format::nothing))]
    fn put(&self, out: &mut Bytes) -> Result<(), AllocError> {
        match self {
            RecordedReply::Yes => out.push(0),
            RecordedReply::Changed(what) => {
                out.push(1)?;
                what.put(out)
            }
        }
    }
}

impl Field for InvokedReply {
    ghost format = { invoked_reply };

    ghost sends = { InvokedSends };

    #[tactic(auto, unfolding(crate::specs::Replies::invoked_reply, crate::specs::Format::nothing, crate::specs::Format::byte))]
    fn read(alloc: Global, bytes: &[u8]) -> Result<(InvokedReply, &[u8]), ReadFault> {
        let (code, rest) = read_byte(bytes, 0, 2)?;
        match code {
            0 => {
                let (answer, rest) = Answer::read(alloc, rest)?;
                Ok((InvokedReply::Answered(answer), rest))
            }
            1 => {
                let (holder, rest) = Uid::read(alloc, rest)?;
                let (mode, rest) = Mode::read(alloc, rest)?;
                Ok((InvokedReply::Conflict { holder, mode }, rest))
            }
            2 => {
                let (what, rest) = What::read(alloc, rest)?;
                Ok((InvokedReply::Changed(what), rest))
            }
            _ => Err(ReadFault::Left(bytes.len())),
        }
    }

    #[tactic(auto, using(std::proofs::lemmas::List::append_assoc), unfolding(crate::specs::Replies::invoked_reply, crate::specs::Format::nothing))]
    fn put(&self, out: &mut Bytes) -> Result<(), AllocError> {
        match self {
            InvokedReply::Answered(answer) => {
                out.push(0)?;
                answer.put(out)
            }
            InvokedReply::Conflict { holder, mode } => {
                out.push(1)?;
                holder.put(out)?;
                mode.put(out)
            }
            InvokedReply::Changed(what) => {
                out.push(2)?;
                what.put(out)
            }
        }
    }
}

impl Field for VotedReply {
    ghost format = { voted_reply };

    ghost sends = { VotedSends };

    #[tactic(auto, unfolding(crate::specs::Replies::voted_reply, crate::specs::Format::nothing, crate::specs::Format::byte))]
    fn read(alloc: Global, bytes: &[u8]) -> Result<(VotedReply, &[u8]), ReadFault> {
        let (code, rest) = read_byte(bytes, 0, 1)?;
        match code {
            0 => {
                let (states, rest) = States::read(alloc, rest)?;
                Ok((VotedReply::Yes(states), rest))
            }
            1 => {
                let (what, rest) = What::read(alloc, rest)?;
                Ok((VotedReply::Changed(what), rest))
            }
            _ => Err(ReadFault::Left(bytes.len())),
        }
    }

    #[tactic(auto, using(std::proofs::lemmas::List::append_assoc), unfolding(crate::specs::Replies::voted_reply, crate::specs::Format::nothing))]
    fn put(&self, out: &mut Bytes) -> Result<(), AllocError> {
        match self {
            VotedReply::Yes(states) => {
                out.push(0)?;
                states.put(out)
            }
            VotedReply::Changed(what) => {
                out.push(1)?;
                what.put(out)
            }
        }
    }
}

impl Field for PreparedReply {
    ghost format = { prepared_reply };

    ghost sends = { PreparedSends };

    #[tactic(auto, unfolding(crate::specs::Replies::prepared_reply, crate::specs::Format::nothing, crate::specs::Format::byte))]
    fn read(alloc: Global, bytes: &[u8]) -> Result<(PreparedReply, &[u8]), ReadFault> {
        let (code, rest) = read_byte(bytes, 0, 2)?;
        match code {
            0 => Ok((PreparedReply::Yes, rest)),
            1 => {
                let (x, rest) = u16::read(alloc, rest)?;
                let (holder, rest) = Uid::read(alloc, rest)?;
                Ok((PreparedReply::InDoubt { x, holder }, rest))
            }
            2 => {
                let (x, rest) = u16::read(alloc, rest)?;
                let (held, rest) = u64::read(alloc, rest)?;
                Ok((PreparedReply::Old { x, held }, rest))
            }
            _ => Err(ReadFault::Left(bytes.len())),
        }
    }

    #[tactic(auto, using(std::proofs::lemmas::List::append_assoc), unfolding(crate::specs::Replies::prepared_reply, crate::specs::Format::nothing))]
    fn put(&self, out: &mut Bytes) -> Result<(), AllocError> {
        match self {
            PreparedReply::Yes => out.push(0),
            PreparedReply::InDoubt { x, holder } => {
                out.push(1)?;
                x.put(out)?;
                holder.put(out)
            }
            PreparedReply::Old { x, held } => {
                out.push(2)?;
                x.put(out)?;
                held.put(out)
            }
        }
    }
}

impl Field for ConfirmedReply {
    ghost format = { confirmed_reply };

    ghost sends = { ConfirmedSends };

    #[tactic(auto, unfolding(crate::specs::Replies::confirmed_reply, crate::specs::Format::nothing, crate::specs::Format::byte))]
    fn read(alloc: Global, bytes: &[u8]) -> Result<(ConfirmedReply, &[u8]), ReadFault> {
        let (code, rest) = read_byte(bytes, 0, 4)?;
        match code {
            0 => Ok((ConfirmedReply::Yes, rest)),
            1 => {
                let (holder, rest) = Uid::read(alloc, rest)?;
                let (mode, rest) = Mode::read(alloc, rest)?;
                Ok((ConfirmedReply::Conflict { holder, mode }, rest))
            }
            2 => {
                let (what, rest) = What::read(alloc, rest)?;
                Ok((ConfirmedReply::Changed(what), rest))
            }
            3 => {
                let (x, rest) = u16::read(alloc, rest)?;
                Ok((ConfirmedReply::NoStores { x }, rest))
            }
            4 => {
                let (x, rest) = u16::read(alloc, rest)?;
                let (node, rest) = u8::read(alloc, rest)?;
                Ok((ConfirmedReply::Listed { x, node }, rest))
            }
            _ => Err(ReadFault::Left(bytes.len())),
        }
    }

    #[tactic(auto, using(std::proofs::lemmas::List::append_assoc), unfolding(crate::specs::Replies::confirmed_reply, crate::specs::Format::nothing))]
    fn put(&self, out: &mut Bytes) -> Result<(), AllocError> {
        match self {
            ConfirmedReply::Yes => out.push(0),
            ConfirmedReply::Conflict { holder, mode } => {
                out.push(1)?;
                holder.put(out)?;
                mode.put(out)
            }
            ConfirmedReply::Changed(what) => {
                out.push(2)?;
                what.put(out)
            }
            ConfirmedReply::NoStores { x } => {
                out.push(3)?;
                x.put(out)
            }
            ConfirmedReply::Listed { x, node } => {
                out.push(4)?;
                x.put(out)?;
                node.put(out)
            }
        }
    }
}
