// The frames of a run, and the lines of the event in hand.
ghost use Rattle.std.specs.Prelude.{◌≡◌, ◌++◌, ◌∷◌, [], map, false, OnOk};
ghost use Rattle.arj_core.specs.Steps.{Sent, message_of, seen_of};
ghost use Rattle.arj_protocol.specs.World.{numbered};
ghost use Rattle.arj_world.specs.Wire.{AreFew, put_seen, shown};

use arj_base::Bytes;
use arj_core::{Output, Outputs};
use arj_journal::{Body, FrameKind, Line, Lines};
use arj_net::{Net, NetFault};
use std::alloc::{AllocError, Global};

/// The frames that were sent, the number of the event in hand, and whether a frame didn't fit.
#[derive(Drop)]
pub struct Wire {
    pub net: Net,
    pub event: u32,
    pub full: bool,
}

impl Wire {
    /// No frame, before the first event. It allocates nothing.
    pub fn new(alloc: Global) -> Wire
        ensures net { result.net ≡ [] }
        ensures event { result.event ≡ 0 }
        ensures full { result.full ≡ false }
    {
        Wire {
            net: Net::new(alloc),
            event: 0,
            full: false,
        }
    }

    /// Puts a line of the event in hand at the journal's end.
    pub fn say(&self, body: Body, journal: &mut Lines) -> Result<(), AllocError>
        ensures { OnOk result (journal.new ≡ journal.old ++ numbered self.now.event (body ∷ [])) }
    {
        journal.push(Line {
            event: self.event,
            body,
        })
    }

    /// Sends a message, and says so. One frame too many is lost.
    pub fn send(
        &mut self,
        from: u8,
        to: u8,
        kind: FrameKind,
        bytes: Bytes,
        journal: &mut Lines,
    ) -> Result<(), AllocError>
        ensures put { OnOk result (shown self.new journal.new ≡ put_seen from self.old.event (Sent to kind (message_of bytes) ∷ []) (shown self.old journal.old)) }
        ensures few { AreFew self.new.net }
        ensures event { self.new.event ≡ self.old.event }
    {
        match self.net.send(from, to, bytes) {
            Ok(frame) => self.say(
                Body::Sent {
                    frame,
                    from,
                    to,
                    kind,
                },
                journal,
            ),
            Err(NetFault::Full) => {
                self.full = true;
                Ok(())
            }
            Err(NetFault::Memory) => Err(AllocError),
        }
    }

    // Puts one thing that a node put out.
    fn put_one(&mut self, node: u8, output: Output, journal: &mut Lines) -> Result<(), AllocError>
        requires { AreFew self.old.net }
        ensures put { OnOk result (shown self.new journal.new ≡ put_seen node self.old.event (seen_of output ∷ []) (shown self.old journal.old)) }
        ensures few { AreFew self.new.net }
        ensures event { self.new.event ≡ self.old.event }
    {
        match output {
            Output::Say(body) => self.say(body, journal),
            Output::Send { to, kind, bytes } => self.send(node, to, kind, bytes, journal),
        }
    }

    /// Puts what a node put out: lines, and messages as frames with their lines.
    #[tactic(auto, using(crate::proofs::Wires::put_on, crate::proofs::Wires::put_all))]
    pub fn put(&mut self, node: u8, outputs: Outputs, journal: &mut Lines) -> Result<(), AllocError>
        requires { AreFew self.old.net }
        ensures put { OnOk result (shown self.new journal.new ≡ put_seen node self.old.event (map seen_of outputs) (shown self.old journal.old)) }
        ensures few { AreFew self.new.net }
        ensures event { self.new.event ≡ self.old.event }
    {
        for output in outputs.into_vec() {
            self.put_one(node, output, journal)?;
        }
        Ok(())
    }
}
