// Paths, and the heads of requests and answers.
ghost use Rattle.std.specs.Prelude.{◌≡◌, ◌≤◌, length, ⊤};
ghost use Rattle.arj_base.specs.Path.{uids_of, tops_of};
ghost use Rattle.arj_msg.specs.Head.{path, path_of, head, asked};

use crate::fault::ReadFault;
use crate::field::{Field, put_items, read_byte, read_items};
use crate::{Asked, Head};
use arj_base::{Bytes, Path, Uid};
use std::alloc::{AllocError, Global};

impl Field for Path {
    ghost format = { path };

    ghost sends = { λ _. ⊤ };

    #[tactic(auto, unfolding(crate::specs::Head::path))]
    fn read(alloc: Global, bytes: &[u8]) -> Result<(Path, &[u8]), ReadFault> {
        let (count, rest) = read_byte(bytes, 1, 16)?;
        let (uids, rest) = read_items::<Uid>(alloc, usize::from(count), rest)?;
        let (tops, rest) = read_byte(rest, 1, count.min(2))?;
        Ok((path_with(uids.as_slice(), tops), rest))
    }

    #[tactic(auto, using(std::proofs::lemmas::List::append_assoc), unfolding(crate::specs::Head::path, crate::specs::Format::byte))]
    fn put(&self, out: &mut Bytes) -> Result<(), AllocError> {
        out.push(self.len())?;
        put_items(self.as_slice(), out)?;
        out.push(self.tops())
    }
}

/// The path with these Uids and this number of tops.
fn path_with(uids: &[Uid], tops: u8) -> Path
    requires some { 1 ≤ length uids.now }
    requires most { length uids.now ≤ 16 }
    requires one_top { 1 ≤ tops }
    requires two_tops { tops ≤ 2 }
    requires within { tops ≤ length uids.now }
    ensures { result ≡ path_of uids.now tops }
{
    let mut path = Path::new(uids[0]);
    for i in 1..uids.len() {
        let Some(longer) = path.push(uids[i], i == 1 && tops == 2) else {
            return path;
        };
        path = longer;
    }
    path
}

impl Field for Head {
    ghost format = { head };

    ghost sends = { λ _. ⊤ };

    #[tactic(auto, unfolding(crate::specs::Head::head))]
    fn read(alloc: Global, bytes: &[u8]) -> Result<(Head, &[u8]), ReadFault> {
        let (path, rest) = Path::read(alloc, bytes)?;
        let (req, rest) = u32::read(alloc, rest)?;
        Ok((Head { path, req }, rest))
    }

    #[tactic(auto, using(std::proofs::lemmas::List::append_assoc), unfolding(crate::specs::Head::head))]
    fn put(&self, out: &mut Bytes) -> Result<(), AllocError> {
        self.path.put(out)?;
        self.req.put(out)
    }
}

impl Field for Asked {
    ghost format = { asked };

    ghost sends = { λ _. ⊤ };

    #[tactic(auto, unfolding(crate::specs::Head::asked))]
    fn read(alloc: Global, bytes: &[u8]) -> Result<(Asked, &[u8]), ReadFault> {
        let (act, rest) = Uid::read(alloc, bytes)?;
        let (req, rest) = u32::read(alloc, rest)?;
        Ok((Asked { act, req }, rest))
    }

    #[tactic(auto, using(std::proofs::lemmas::List::append_assoc), unfolding(crate::specs::Head::asked))]
    fn put(&self, out: &mut Bytes) -> Result<(), AllocError> {
        self.act.put(out)?;
        self.req.put(out)
    }
}
