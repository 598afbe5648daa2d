// The law of messages in form.
ghost use Rattle.std.specs.Prelude.{◌↔◌, ◌≤◌, length};
ghost use Rattle.arj_base.specs.Path.{uids_of, tops_of};
ghost use Rattle.arj_base.specs.State.{state_bytes};
ghost use Rattle.arj_base.specs.declared.path.Path.{Path};
ghost use Rattle.arj_base.specs.declared.state.ObjectState.{ObjectState};
ghost use Rattle.arj_msg.specs.State.{Restores};
ghost use Rattle.arj_msg.specs.Sendable.{IsSendable};
ghost use Rattle.arj_msg.specs.InForm.{IsInForm};
ghost use Rattle.arj_msg.specs.Layout.{MessageInForm};
ghost use Rattle.arj_msg.specs.declared.message.Message.{Message};

use crate::Message;
use arj_base::{ObjectState, Path};

/// A message is in form exactly where the table of its kind says so. A path has 1 to 16 Uids, of which 1 or 2 end with
/// tops; a state whose payload restores packs into at most 304 bytes. A message in form can be sent. It does nothing
/// when it runs.
pub fn messages_in_form()
    ensures form { (m : Message) → MessageInForm m ↔ IsInForm m }
    ensures paths { (p : Path) → (1 ≤ length (uids_of p)) × (length (uids_of p) ≤ 16) × (1 ≤ tops_of p) × (tops_of p ≤ 2) × (tops_of p ≤ length (uids_of p)) }
    ensures states { (s : ObjectState) → Restores s.format s.class s.payload → length (state_bytes s) ≤ 304 }
    ensures sends { (m : Message) → MessageInForm m → IsSendable m }
{}
