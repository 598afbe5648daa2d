// What is known of an object's binding.
ghost use Rattle.std.specs.Prelude.{◌≡◌, IfOk, None, Some, true, false};
ghost use Rattle.arj_protocol.specs.Call.{live_known, made_known, write_known};
ghost use Rattle.arj_base.specs.declared.state.ObjectState.{ObjectState};

use arj_base::{Binding, NodeList, ObjectState};
use std::alloc::AllocError;
use std::marker::Model;

/// What an answer of naming told: the binding and its server, 0.0 and 0 for an include; the server's incarnation once it
/// is known; the naming incarnation of the lock that was granted; the stores in the order in which they are asked; whether
/// the binding is recorded. Contracts see the protocol's `Known`.
#[derive(Drop)]
pub struct Known {
    pub binding: Binding,
    pub server: u8,
    pub inc: Option<u32>,
    pub grant: u32,
    pub stores: NodeList,
    pub recorded: bool,
}

impl Model for Known {
    ghost use Rattle.arj_protocol.specs.Call as call;

    ghost Value = { call.Known };

    ghost view = { λ k. record { binding = k.binding; server = k.server; inc = k.inc; grant = k.grant; stores = k.stores; recorded = k.recorded } };
}

impl Known {
    /// What an answer told of a binding that is in use.
    pub fn live(binding: Binding, server: u8, inc: u32, grant: u32, stores: NodeList) -> Known
        ensures { result ≡ live_known binding server inc grant stores }
    {
        Known {
            binding,
            server,
            inc: Some(inc),
            grant,
            stores,
            recorded: true,
        }
    }

    /// What an answer told of a binding that was made for the asking top.
    pub fn made(binding: Binding, server: u8, grant: u32, stores: NodeList) -> Known
        ensures { result ≡ made_known binding server grant stores }
    {
        Known {
            binding,
            server,
            inc: None,
            grant,
            stores,
            recorded: false,
        }
    }

    /// What an answer told to an include.
    pub fn write(grant: u32, stores: NodeList) -> Known
        ensures { result ≡ write_known grant stores }
    {
        Known {
            binding: Binding { inc: 0, count: 0 },
            server: 0,
            inc: None,
            grant,
            stores,
            recorded: false,
        }
    }

    /// The same again, in other memory.
    pub fn copy(&self) -> Result<Known, AllocError>
        ensures { IfOk result (λ copied. copied ≡ self.now) }
    {
        Ok(Known {
            binding: self.binding,
            server: self.server,
            inc: self.inc,
            grant: self.grant,
            stores: self.stores.copy()?,
            recorded: self.recorded,
        })
    }
}

/// An object state again, in other memory.
pub fn copy_state(state: &ObjectState) -> Result<ObjectState, AllocError>
    ensures { IfOk result (λ copied. copied ≡ state.now) }
{
    Ok(ObjectState {
        uid: state.uid,
        class: state.class,
        version: state.version,
        writer: state.writer,
        payload: state.payload.copy()?,
        format: state.format,
    })
}
