// What a coordinator does.
use arj_base::Uid;
use arj_intent::Intent;
use arj_journal::Body;
use arj_msg::Message;

/// What a coordinator does: a line of the journal, a message to a node, or work on the records of commits on the disk. A message
/// is long, and stands in a box.
#[derive(Drop)]
pub enum Effect {
    Say(Body),
    Send(u8, Box<Message>),
    /// The record of a commit is put in its place: the commit is decided.
    PutRecord(Intent),
    /// The record of the commit of this top is removed: all have acknowledged.
    RemoveRecord(Uid),
}
