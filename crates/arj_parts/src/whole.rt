// A node's parts over any object store, as a node wants them.
use crate::{NodeParts, beginnings};
use arj_base::Class;
use arj_core::CoreFault;
use arj_disk::Disk;
use arj_journal as journal;
use arj_msg::Message;
use arj_node::{Act, Outgoings, Parts};
use arj_store::ObjectStore;
use std::alloc::{AllocError, Global};

impl<O: ObjectStore + Drop> Parts for NodeParts<O> {
    ghost use Rattle.arj_parts.specs.Kept.{RestsOn, StandsOn};

    ghost stands = { λ header n p file h. StandsOn O.ObjectStore n p file h };

    ghost rests = { λ header n file d. RestsOn O.ObjectStore n file d };

    fn format<D: Disk>(
        alloc: Global,
        number: u8,
        header: &journal::Header,
        disk: &mut D,
    ) -> Result<Self, CoreFault> {
        beginnings::format(alloc, number, header, disk)
    }

    fn restart<D: Disk>(
        alloc: Global,
        number: u8,
        nodes: u8,
        disk: &mut D,
        outs: &mut Outgoings,
    ) -> Result<Self, CoreFault> {
        beginnings::restart(alloc, number, nodes, disk, outs)
    }

    fn is_idle(&self) -> bool {
        self.is_settled()
    }

    fn act<D: Disk>(
        &mut self,
        disk: &mut D,
        act: Act,
        class: Option<Class>,
        outs: &mut Outgoings,
    ) -> Result<Option<u8>, CoreFault> {
        self.ask_action(disk, act, class, outs)
    }

    fn tick(&mut self, outs: &mut Outgoings) -> Result<(), AllocError> {
        self.ask_again(outs)
    }

    fn show<D: Disk>(
        &mut self,
        disk: &mut D,
        x: u16,
        outs: &mut Outgoings,
    ) -> Result<(), CoreFault> {
        self.show_object(disk, x, outs)
    }

    fn take<D: Disk>(
        &mut self,
        disk: &mut D,
        from: u8,
        m: Box<Message>,
        outs: &mut Outgoings,
    ) -> Result<bool, CoreFault> {
        self.take_message(disk, from, m, outs)
    }

    ghost falls = { λ header n p file h s. s.rests };
}
