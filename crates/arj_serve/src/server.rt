// Requests to the server.
ghost use Rattle.std.specs.Prelude.{◌<◌, ◌^◌, IfOk};
ghost use Rattle.arj_class.specs.Forms.{OpInForm};
ghost use Rattle.arj_disk.specs.FileMap.{FileMap};
ghost use Rattle.arj_msg.specs.State.{Restores};
ghost use Rattle.arj_protocol.specs.Words.message;
ghost use Rattle.arj_serve.specs.Asked.{Serves};
ghost use Rattle.arj_server.specs.Classes.{HasOp};

use crate::Services;
use crate::answers::{activated, invoked, voted};
use arj_journal::Lines;
use arj_msg::{Activate, Invoke, Message, Vote};
use arj_protocol::parts_act_alone;
use arj_server::messages_are_void_exactly;
use arj_store::ObjectStore;
use std::alloc::AllocError;

impl<O: ObjectStore> Services<O> {
    /// The server takes a copy.
    pub fn activate(&mut self, m: &Activate, out: &mut Lines) -> Result<Option<Message>, AllocError>
        requires object { m.now.state.uid.num < 2 ^ 16 }
        requires restores { Restores m.now.state.format m.now.state.class m.now.state.payload }
        ensures { IfOk result (λ answer. (file : FileMap) → Serves O.ObjectStore (message.Activate m.now) (record { old = self.old; new = self.new; file = file; left = file; before = out.old; after = out.new }) answer) }
    {
        let answer = self.server.activate(self.number, m, out)?;
        parts_act_alone();
        messages_are_void_exactly();
        Ok(activated(answer))
    }

    /// The server does an operation.
    pub fn invoke(&mut self, m: &Invoke, out: &mut Lines) -> Result<Option<Message>, AllocError>
        requires form { OpInForm m.now.op }
        requires has_op { HasOp m.now.x m.now.op self.old.server.objects }
        ensures { IfOk result (λ answer. (file : FileMap) → Serves O.ObjectStore (message.Invoke m.now) (record { old = self.old; new = self.new; file = file; left = file; before = out.old; after = out.new }) answer) }
    {
        let answer = self.server.invoke(self.number, m, out)?;
        parts_act_alone();
        messages_are_void_exactly();
        Ok(invoked(answer))
    }

    /// The server votes.
    pub fn vote(&mut self, m: &Vote, out: &mut Lines) -> Result<Option<Message>, AllocError>
        ensures { IfOk result (λ answer. (file : FileMap) → Serves O.ObjectStore (message.Vote m.now) (record { old = self.old; new = self.new; file = file; left = file; before = out.old; after = out.new }) answer) }
    {
        let answer = self.server.vote(self.number, m, out)?;
        parts_act_alone();
        messages_are_void_exactly();
        Ok(voted(answer))
    }
}
