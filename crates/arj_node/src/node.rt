// One node of a run.
ghost use Rattle.std.specs.Prelude.{◌≡◌, ◌∷◌, ◌++◌, [], None, Some, OnOk, IsErrOf};
ghost use Rattle.arj_core.specs.declared.node.CoreFault.{CoreFault};
ghost use Rattle.arj_core.specs.declared.output.Output.TheVariants as output;
ghost use Rattle.arj_core.specs.Steps.{CountsStep, message_of};
ghost use Rattle.arj_disk.specs.Counted.{counts};
ghost use Rattle.arj_node.specs.Acting.{asked_of, IsClass};
ghost use Rattle.arj_node.specs.Lives.{DoesStep, IsNode, IsSomeNode, StopsStep};
ghost use Rattle.arj_node.specs.Roster.{IsOf};
ghost use Rattle.arj_journal.specs.declared.header.Header.{Header};
ghost use Rattle.arj_protocol.specs.Step as protocol;

use crate::{Act, Parts, Roster, acting, deliver};
use arj_base::Class;
use arj_core::{Core, CoreFault, Input, Output, Outputs};
use arj_disk::Disk;
use arj_journal as journal;
use arj_journal::Body;
use std::alloc::{AllocError, Global};

// The reason of a refusal: the action has ended, with its node.
const ENDED: u8 = 6;

/// One node of a run: while it is up it has its parts.
#[derive(Drop)]
pub struct NodeCore<P> {
    alloc: Global,
    number: u8,
    roster: Roster,
    parts: Option<P>,
}

impl<P: Parts + Drop> Core for NodeCore<P> {
    ghost use Rattle.arj_node.specs.Lives.{IsNode};

    ghost stands = { λ header core file n. IsNode P.Parts header core file n };

    ghost rests = { λ header n file d. P.rests header n file d };

    fn format<D: Disk>(
        alloc: Global,
        node: u8,
        header: &journal::Header,
        disk: &mut D,
    ) -> Result<Self, CoreFault> {
        let roster = Roster::new(alloc, header)?;
        let parts = P::format(alloc, node, header, disk)?;
        Ok(NodeCore {
            alloc,
            number: node,
            roster,
            parts: Some(parts),
        })
    }

    fn down(alloc: Global, node: u8, header: &journal::Header) -> Result<Self, AllocError> {
        let roster = Roster::new(alloc, header)?;
        Ok(NodeCore {
            alloc,
            number: node,
            roster,
            parts: None,
        })
    }

    fn is_up(&self) -> bool {
        self.parts.is_some()
    }

    fn idle(&self) -> bool {
        match &self.parts {
            Some(parts) => parts.is_idle(),
            None => false,
        }
    }

    fn step<D: Disk>(
        &mut self,
        disk: &mut D,
        input: Input,
        out: &mut Outputs,
    ) -> Result<(), CoreFault> {
        match input {
            Input::Begin {
                label,
                kind,
                parent,
            } => self.act(
                disk,
                Act::Begin {
                    label,
                    kind,
                    parent,
                },
                out,
            ),
            Input::Call { label, x, op } => self.act(disk, Act::Call { label, x, op }, out),
            Input::Include { label, x, store } => {
                self.act(disk, Act::Include { label, x, store }, out)
            }
            Input::Commit { label } => self.act(disk, Act::Commit { label }, out),
            Input::Abort { label } => self.act(disk, Act::Abort { label }, out),
            Input::GiveUp { label } => self.act(disk, Act::GiveUp { label }, out),
            Input::Frame { k, from, bytes } => self.frame(disk, k, from, bytes.as_slice(), out),
            Input::Tick => self.tick(disk, out),
            Input::Restart => self.restart(disk, out),
            Input::Crash => self.crash(disk, out),
            Input::Show { x } => self.show(disk, x, out),
        }
    }
}

impl<P: Parts + Drop> NodeCore<P> {
    // The class of the object that an action is asked about.
    fn class(&self, act: &Act) -> Option<Class>
        ensures { (header : Header) → IsOf header self.now.roster → IsClass header act.now result }
    {
        match act {
            Act::Call { x, .. } => self.roster.class(*x),
            Act::Include { x, .. } => self.roster.class(*x),
            _ => None,
        }
    }

    // The node goes down by a fault, which is answered: its parts aren't used again.
    fn fall(&mut self, fault: CoreFault) -> CoreFault
        ensures down { self.new ≡ record self.old { parts = None } }
        ensures fault { result ≡ fault }
    {
        self.parts = None;
        fault
    }

    // An action is asked to do something. At a node that is down it has ended.
    fn act<D: Disk>(&mut self, disk: &mut D, act: Act, out: &mut Outputs) -> Result<(), CoreFault>
        requires stands { IsSomeNode P.Parts self.old (D.file disk.old) }
        ensures done { OnOk result (DoesStep P.Parts (record { old = self.old; new = self.new; file = D.file disk.old; left = D.file disk.new; before = out.old; after = out.new }) (asked_of act)) }
        ensures halted { IsErrOf result CoreFault.Halted → StopsStep P.Parts (record { old = self.old; new = self.new; file = D.file disk.old; left = D.file disk.new; before = out.old; after = out.new }) (asked_of act) }
        ensures counts { CountsStep (counts D.Disk disk.old) (counts D.Disk disk.new) result CoreFault.Halted }
    {
        let class = self.class(&act);
        let Some(parts) = &mut self.parts else {
            return Ok(out.push(Output::Say(Body::Refused { cause: ENDED }))?);
        };
        match acting::act(self.alloc, self.number, parts, disk, act, class, out) {
            Ok(()) => Ok(()),
            Err(fault) => Err(self.fall(fault)),
        }
    }

    // A frame is delivered. At a node that is down it is void.
    fn frame<D: Disk>(
        &mut self,
        disk: &mut D,
        k: u32,
        from: u8,
        bytes: &[u8],
        out: &mut Outputs,
    ) -> Result<(), CoreFault>
        requires stands { IsSomeNode P.Parts self.old (D.file disk.old) }
        ensures done { OnOk result (DoesStep P.Parts (record { old = self.old; new = self.new; file = D.file disk.old; left = D.file disk.new; before = out.old; after = out.new }) (protocol.Frame k from (message_of bytes.now))) }
        ensures halted { IsErrOf result CoreFault.Halted → StopsStep P.Parts (record { old = self.old; new = self.new; file = D.file disk.old; left = D.file disk.new; before = out.old; after = out.new }) (protocol.Frame k from (message_of bytes.now)) }
        ensures counts { CountsStep (counts D.Disk disk.old) (counts D.Disk disk.new) result CoreFault.Halted }
    {
        let Some(parts) = &mut self.parts else {
            return Ok(out.push(Output::Say(Body::Void { frame: k }))?);
        };
        match deliver(self.alloc, self.number, parts, disk, k, from, bytes, out) {
            Ok(()) => Ok(()),
            Err(fault) => Err(self.fall(fault)),
        }
    }

    // What waits is asked for again.
    fn tick<D: Disk>(&mut self, disk: &mut D, out: &mut Outputs) -> Result<(), CoreFault>
        requires stands { IsSomeNode P.Parts self.old (D.file disk.old) }
        ensures done { OnOk result (DoesStep P.Parts (record { old = self.old; new = self.new; file = D.file disk.old; left = D.file disk.new; before = out.old; after = out.new }) protocol.Tick) }
        ensures halted { IsErrOf result CoreFault.Halted → StopsStep P.Parts (record { old = self.old; new = self.new; file = D.file disk.old; left = D.file disk.new; before = out.old; after = out.new }) protocol.Tick }
        ensures counts { CountsStep (counts D.Disk disk.old) (counts D.Disk disk.new) result CoreFault.Halted }
    {
        let Some(parts) = &mut self.parts else {
            return Ok(());
        };
        match acting::tick(self.alloc, self.number, parts, disk, out) {
            Ok(()) => Ok(()),
            Err(fault) => Err(self.fall(fault)),
        }
    }

    // What the disk has of an object is shown.
    fn show<D: Disk>(&mut self, disk: &mut D, x: u16, out: &mut Outputs) -> Result<(), CoreFault>
        requires stands { IsSomeNode P.Parts self.old (D.file disk.old) }
        ensures done { OnOk result (DoesStep P.Parts (record { old = self.old; new = self.new; file = D.file disk.old; left = D.file disk.new; before = out.old; after = out.new }) (protocol.Show x)) }
        ensures halted { IsErrOf result CoreFault.Halted → StopsStep P.Parts (record { old = self.old; new = self.new; file = D.file disk.old; left = D.file disk.new; before = out.old; after = out.new }) (protocol.Show x) }
        ensures counts { CountsStep (counts D.Disk disk.old) (counts D.Disk disk.new) result CoreFault.Halted }
    {
        let Some(parts) = &mut self.parts else {
            return Ok(());
        };
        match acting::show(self.alloc, self.number, parts, disk, x, out) {
            Ok(()) => Ok(()),
            Err(fault) => Err(self.fall(fault)),
        }
    }

    // A node that is down comes up.
    fn restart<D: Disk>(&mut self, disk: &mut D, out: &mut Outputs) -> Result<(), CoreFault>
        requires stands { IsSomeNode P.Parts self.old (D.file disk.old) }
        ensures done { OnOk result (DoesStep P.Parts (record { old = self.old; new = self.new; file = D.file disk.old; left = D.file disk.new; before = out.old; after = out.new }) protocol.Restart) }
        ensures halted { IsErrOf result CoreFault.Halted → StopsStep P.Parts (record { old = self.old; new = self.new; file = D.file disk.old; left = D.file disk.new; before = out.old; after = out.new }) protocol.Restart }
        ensures counts { CountsStep (counts D.Disk disk.old) (counts D.Disk disk.new) result CoreFault.Halted }
    {
        if self.parts.is_some() {
            return Ok(());
        }
        let parts = acting::restart(self.alloc, self.number, self.roster.nodes, disk, out)?;
        self.parts = Some(parts);
        Ok(())
    }

    // A node that is up goes down: what it had in memory is gone.
    fn crash<D: Disk>(&mut self, _disk: &mut D, out: &mut Outputs) -> Result<(), CoreFault>
        requires stands { IsSomeNode P.Parts self.old (D.file _disk.old) }
        ensures done { OnOk result (DoesStep P.Parts (record { old = self.old; new = self.new; file = D.file _disk.old; left = D.file _disk.new; before = out.old; after = out.new }) protocol.Crash) }
        ensures halted { IsErrOf result CoreFault.Halted → StopsStep P.Parts (record { old = self.old; new = self.new; file = D.file _disk.old; left = D.file _disk.new; before = out.old; after = out.new }) protocol.Crash }
        ensures counts { CountsStep (counts D.Disk _disk.old) (counts D.Disk _disk.new) result CoreFault.Halted }
    {
        if self.parts.is_none() {
            return Ok(());
        }
        self.parts = None;
        out.push(Output::Say(Body::Halted { node: self.number }))?;
        Ok(())
    }
}
