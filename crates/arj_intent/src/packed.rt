// The file of a record.
ghost use Rattle.std.specs.Prelude.{◌≡◌, ◌≤◌, ◌<◌, ◌++◌, ◌∷◌, length, take, drop, IfOk, OnOk};
ghost use Rattle.std.specs.List.{AllByRecursion};
ghost use Rattle.arj_base.specs.Uid.{uid_bytes, UidFits};
ghost use Rattle.arj_disk.specs.Formed.{intent_bytes, IsIntentOf};
ghost use Rattle.arj_intent.specs.Records.{IsInForm};

use crate::Intent;
use arj_base::{Bytes, NodeList, Uid};
use std::alloc::{AllocError, Global};

/// The bytes of a record: `ARJN`, the root, the top, the count of its nodes, and the nodes.
#[tactic(auto, using(std::proofs::lemmas::List::append_assoc))]
pub fn intent_file(alloc: Global, i: &Intent) -> Result<Bytes, AllocError>
    requires { IsInForm i.now }
    ensures bytes { IfOk result (λ bytes. bytes ≡ intent_bytes i.now.root i.now.top i.now.nodes) }
    ensures form { IfOk result (IsIntentOf i.now.top) }
    ensures fits { OnOk result (UidFits i.now.root) }
{
    let mut bytes = Bytes::new(alloc);
    bytes.extend(b"ARJN")?;
    bytes.extend(&i.root.to_bytes())?;
    bytes.extend(&i.top.to_bytes())?;
    put_nodes(&mut bytes, i.nodes.as_slice())?;
    Ok(bytes)
}

// Puts the count of the nodes, and the nodes, at the end.
#[tactic(auto, using(std::proofs::lemmas::List::append_assoc))]
fn put_nodes(bytes: &mut Bytes, nodes: &[u8]) -> Result<(), AllocError>
    requires { length nodes.now < 256 }
    ensures ok { OnOk result (bytes.new ≡ bytes.old ++ (length nodes.now ∷ nodes.now)) }
    ensures fit { AllByRecursion (λ n. n < 256) nodes.now }
{
    bytes.push(nodes.len() as u8)?;
    bytes.extend(nodes)?;
    Ok(())
}

/// The record with these bytes, of the top of the file's name. Only memory can be wanting.
pub fn intent_in(alloc: Global, top: Uid, bytes: &[u8]) -> Result<Intent, AllocError>
    requires { IsIntentOf top bytes.now }
    ensures top { IfOk result (λ i. i.top ≡ top) }
    ensures bytes { IfOk result (λ i. bytes.now ≡ intent_bytes i.root top i.nodes) }
    ensures form { IfOk result IsInForm }
    ensures fits { IfOk result (λ i. UidFits i.root) }
{
    let mut nodes = NodeList::new(alloc);
    nodes.extend(&bytes[37..])?;
    let root = root_in(bytes);
    Ok(Intent { root, top, nodes })
}

// The root in the bytes of a record.
fn root_in(bytes: &[u8]) -> Uid
    requires { 37 ≤ length bytes.now }
    ensures bytes { uid_bytes result ≡ take 16 (drop 4 bytes.now) }
    ensures fits { UidFits result }
{
    let mut root = [0; 16];
    root.copy_from_slice(&bytes[4..20]);
    Uid::from_bytes(&root)
}
