// Frames that are delivered or lost, and nodes that settle.
ghost use Rattle.std.specs.Prelude.{◌≡◌, ◌++◌, [], None, OnOk, IfOk, map, if◌then◌else◌};
ghost use Rattle.arj_net.specs.Net.{as_delivered, as_lost, changed_at, frame_of};
ghost use Rattle.arj_protocol.specs.World.{lowest_from, numbered};
ghost use Rattle.arj_protocol.specs.World as protocol;
ghost use Rattle.arj_world.specs.Disks.{HaveMoved};
ghost use Rattle.arj_world.specs.Goes.{GoesTo};
ghost use Rattle.arj_world.specs.Stands.{StandsSome, hand};
ghost use Rattle.arj_world.specs.Tells.{TellsStops, nobody};
ghost use Rattle.arj_world.specs.Wire as wire;

use crate::World;
use arj_core::{Core, Input};
use arj_disk::{Disk, Rack};
use arj_journal::{Body, Lines};
use arj_net::{Frame, MOST_FRAMES};
use std::alloc::AllocError;

impl<C: Core> World<C> {
    // The frame of this number, which is marked as delivered.
    fn take_frame(&mut self, k: u32) -> Result<Option<Frame>, AllocError>
        ensures frame { IfOk result (λ frame. frame ≡ frame_of self.old.net k) }
        ensures marked { OnOk result (self.new ≡ record self.old { net = changed_at as_delivered self.old.net k }) }
        ensures header { self.new.header ≡ self.old.header }
    {
        let Some(frame) = self.wire.net.get(k) else {
            return Ok(None);
        };
        let copied = Frame {
            from: frame.from,
            to: frame.to,
            bytes: frame.bytes.copy()?,
        };
        self.wire.net.delivered(k);
        Ok(Some(copied))
    }

    /// Delivers a frame to the node that it is for. A number that no frame has does nothing, nor does a node that isn't there.
    #[tactic(auto, using(crate::proofs::Disks::moved_none, crate::proofs::Tells::tells_none))]
    pub(crate) fn deliver<D: Disk>(
        &mut self,
        rack: &mut Rack<D>,
        k: u32,
        journal: &mut Lines,
    ) -> Result<(), AllocError>
        requires stands { StandsSome C.Core D.file (hand self.old rack.old journal.old) }
        ensures goes { OnOk result (GoesTo C.Core D.file (protocol.deliver k) (hand self.old rack.old journal.old) (hand self.new rack.new journal.new)) }
        ensures header { self.new.header ≡ self.old.header }
        ensures disks { HaveMoved D.Disk self.old.header.nodes [] rack.old rack.new }
        ensures tells { OnOk result (TellsStops D.Disk self.old.header.nodes nobody rack.old rack.new journal.old journal.new) }
    {
        let Some(frame) = self.take_frame(k)? else {
            return Ok(());
        };
        let Frame { from, to, bytes } = frame;
        self.ask_node(
            rack,
            u32::from(to),
            Input::Frame { k, from, bytes },
            journal,
        )
    }

    /// Loses a frame, and says so. A number that no frame has does nothing.
    pub(crate) fn lose(&mut self, k: u32, journal: &mut Lines) -> Result<(), AllocError>
        ensures lost { OnOk result (self.new ≡ record self.old { net = changed_at as_lost self.old.net k }) }
        ensures said { OnOk result (journal.new ≡ journal.old ++ numbered self.old.event (wire.dropped_line k (frame_of self.old.net k))) }
        ensures header { self.new.header ≡ self.old.header }
    {
        if self.wire.net.get(k).is_none() {
            return Ok(());
        }
        self.wire.net.lose(k);
        self.wire.say(Body::Dropped { frame: k }, journal)
    }

    // The lowest number of a frame that was neither delivered nor lost, as long as all frames fitted.
    fn lowest(&self) -> Option<u32>
        ensures { result ≡ (if self.now.full then None else lowest_from 1 (map wire.frame_of self.now.net)) }
    {
        if self.wire.full {
            return None;
        }
        self.wire.net.lowest()
    }

    /// Delivers frames, the lowest number first, until there is none or one doesn't fit.
    pub(crate) fn settle<D: Disk>(
        &mut self,
        rack: &mut Rack<D>,
        journal: &mut Lines,
    ) -> Result<(), AllocError>
        requires stands { StandsSome C.Core D.file (hand self.old rack.old journal.old) }
        ensures goes { OnOk result (GoesTo C.Core D.file protocol.settle (hand self.old rack.old journal.old) (hand self.new rack.new journal.new)) }
        ensures header { self.new.header ≡ self.old.header }
        ensures disks { HaveMoved D.Disk self.old.header.nodes [] rack.old rack.new }
        ensures tells { OnOk result (TellsStops D.Disk self.old.header.nodes nobody rack.old rack.new journal.old journal.new) }
    {
        let mut left = MOST_FRAMES;
        while 0 < left {
            let Some(k) = self.lowest() else {
                return Ok(());
            };
            self.deliver(rack, k, journal)?;
            left -= 1;
        }
        Ok(())
    }
}
