// An action begins.
ghost use Rattle.std.specs.Prelude.{◌≡◌, ◌⊎◌, ◌++◌, option_map, IfErr, IfSome, OnOk, Err};
ghost use Rattle.arj_asking.specs.Begun.{uid_of_label};
ghost use Rattle.arj_protocol.specs.Asking as asking;
ghost use Rattle.arj_protocol.specs.Step.{parent_of};
ghost use Rattle.arj_tree.specs.Faults.{begin_refusal};
ghost use Rattle.arj_tree.specs.Stands.{parent_in};
ghost use Rattle.arj_tree.specs.declared.fault.TreeFault.TheVariants as fault;

use arj_base::Uid;
use arj_coord::{Coord, Effects};
use arj_journal::{Body, Kind, Label};
use arj_tree::TreeFault;

// The action with a label, where one is given.
fn parent_of(coord: &Coord, parent: Option<Label>) -> Option<Uid>
    ensures uid { result ≡ uid_of_label parent coord.now }
    ensures branch { parent_in result coord.now.tree ≡ parent_of parent coord.now }
{
    match parent {
        Some(label) => coord.named(label),
        None => None,
    }
}

/// Begins an action with this label, in the one with the parent's label where one is given: refused as `arj_tree` says.
pub fn begin_action(
    coord: &mut Coord,
    label: Label,
    kind: Kind,
    parent: Option<Label>,
    outs: &mut Effects,
) -> Result<(), TreeFault>
    ensures part { OnOk result (coord.new ≡ (asking.begin_action label kind parent (parent_of parent coord.old) coord.old).part) }
    ensures outs { OnOk result (outs.new ≡ outs.old ++ (asking.begin_action label kind parent (parent_of parent coord.old) coord.old).outs) }
    ensures refused { IfSome (begin_refusal kind (uid_of_label parent coord.old) coord.old.tree) (λ e. result ≡ Err e) }
    ensures faults { IfErr result (λ e. (begin_refusal kind (uid_of_label parent coord.old) coord.old.tree ≡ Some e) ⊎ (e ≡ fault.Memory)) }
{
    let above = parent_of(coord, parent);
    let uid = coord.begin(label, kind, above)?;
    outs.say(Body::Began {
        label,
        kind,
        uid,
        parent,
    })?;
    Ok(())
}
