// Entries: who serves an object, and who holds its state.
ghost use Rattle.std.specs.Prelude.{◌≡◌, ◌≢◌, ◌≤◌, [], ◌∷◌, ◌++◌, ℕ, List, length, not, IfOk, IfSome, OnOk, OnErr, IsErrOf, MatchOption};
ghost use Rattle.arj_class.specs.declared.object_class.ClassFault.TheVariants.{Payload};
ghost use Rattle.arj_entry.specs.Entry.{EntryInForm, entry_payload, nodes_bytes, is_listed, with_store, without_store};
ghost use Rattle.arj_entry.specs.declared.entry.Entry.{Entry};

use arj_base::{Bytes, NodeList};
use arj_class::ClassFault;
use std::alloc::{AllocError, Global};

/// The naming service's entry of an object: the nodes that may run a server for it, first choice first, and the
/// nodes that hold its state, in the order in which they are asked for it. At most 255 of each can be saved.
#[derive(Drop)]
pub struct Entry {
    pub servers: NodeList,
    pub stores: NodeList,
}

impl Entry {
    /// The entry as the payload of a packed state: a count of servers and the servers, a count of stores and the
    /// stores, one byte for each.
    pub fn save(&self, alloc: Global) -> Result<Bytes, AllocError>
        requires { EntryInForm self.now }
        ensures payload { IfOk result (λ payload. payload ≡ entry_payload self.now) }
        ensures short { IfOk result (λ payload. length payload ≤ 512) }
    {
        let mut payload = Bytes::new(alloc);
        put_nodes(&mut payload, self.servers.as_slice())?;
        put_nodes(&mut payload, self.stores.as_slice())?;
        Ok(payload)
    }

    /// The one entry that is saved to these bytes.
    pub fn restore(alloc: Global, payload: &[u8]) -> Result<Entry, ClassFault>
        ensures payload { IfOk result (λ e. entry_payload e ≡ payload.now) }
        ensures in_form { IfOk result (λ e. EntryInForm e) }
        ensures only { IfOk result (λ e. (w : Entry) → entry_payload w ≡ payload.now → w ≡ e) }
        ensures none { IsErrOf result Payload → (w : Entry) → entry_payload w ≢ payload.now }
    {
        let Some((servers, behind)) = take_nodes(payload) else {
            return Err(ClassFault::Payload);
        };
        let Some((stores, behind)) = take_nodes(behind) else {
            return Err(ClassFault::Payload);
        };
        if !behind.is_empty() {
            return Err(ClassFault::Payload);
        }
        let servers = node_list(alloc, servers)?;
        let stores = node_list(alloc, stores)?;
        Ok(Entry { servers, stores })
    }

    /// Takes a store out of the list, and answers whether it was listed.
    pub fn exclude(&mut self, s: u8) -> bool
        ensures answer { result ≡ is_listed s self.old.stores }
        ensures stores { self.new.stores ≡ without_store s self.old.stores }
        ensures servers { self.new.servers ≡ self.old.servers }
    {
        let listed = self.lists(s);
        self.stores.remove_all(s);
        listed
    }

    /// Puts a store behind the others, if it isn't among them, and answers whether it did.
    pub fn include(&mut self, s: u8) -> Result<bool, AllocError>
        ensures answer { IfOk result (λ included. included ≡ not (is_listed s self.old.stores)) }
        ensures stores { OnOk result (self.new.stores ≡ with_store s self.old.stores) }
        ensures servers { self.new.servers ≡ self.old.servers }
        ensures err { OnErr result (self.new ≡ self.old) }
    {
        if self.lists(s) {
            return Ok(false);
        }
        self.stores.push(s)?;
        Ok(true)
    }

    // Whether the node is among the stores.
    fn lists(&self, s: u8) -> bool
        ensures { result ≡ is_listed s self.now.stores }
    {
        self.stores.as_slice().contains(&s)
    }
}

// Puts a count of nodes and the nodes at the end.
fn put_nodes(payload: &mut Bytes, nodes: &[u8]) -> Result<(), AllocError>
    requires { length nodes.now ≤ 255 }
    ensures { OnOk result (payload.new ≡ payload.old ++ nodes_bytes nodes.now) }
{
    payload.push(nodes.len() as u8)?;
    payload.extend(nodes)?;
    Ok(())
}

// The nodes behind their count, and the bytes behind them; None where there are fewer bytes than that.
fn take_nodes(bytes: &[u8]) -> Option<(&[u8], &[u8])>
    ensures cut { MatchOption result ((nodes behind : List ℕ) → bytes.now ≢ nodes_bytes nodes ++ behind) (λ r. bytes.now ≡ nodes_bytes r.0.now ++ r.1.now) }
    ensures few { IfSome result (λ r. length r.0.now ≤ 255) }
{
    let (count, behind) = bytes.split_first()?;
    behind.split_at_checked(usize::from(*count))
}

// A list of these nodes.
fn node_list(alloc: Global, nodes: &[u8]) -> Result<NodeList, AllocError>
    ensures { IfOk result (λ list. list ≡ nodes.now) }
{
    let mut list = NodeList::new(alloc);
    list.extend(nodes)?;
    Ok(list)
}
