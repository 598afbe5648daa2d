// The labels that a journal gave.
ghost use Rattle.std.specs.Prelude.{◌≡◌, [], IfOk, OnOk};
ghost use Rattle.arj_resuming.specs.Given.{given_behind, labels_in};

use arj_journal::{Body, Label, Line};
use std::alloc::{AllocError, Global};
use std::collections::BTreeSet;

// Puts the label of an action that began, if the line says so, among these.
fn put_label(given: &mut BTreeSet<Label>, body: &Body) -> Result<(), AllocError>
    ensures { OnOk result (given.new.keys ≡ given_behind given.old.keys body.now) }
{
    match body {
        Body::Began { label, .. } => {
            given.insert(*label)?;
            Ok(())
        }
        _ => Ok(()),
    }
}

/// The labels of the actions that began in these lines.
pub fn given_labels(alloc: Global, lines: &[Line]) -> Result<BTreeSet<Label>, AllocError>
    ensures { IfOk result (λ given. given.keys ≡ labels_in lines.now) }
{
    let mut given = BTreeSet::new(alloc);
    for line in lines {
        put_label(&mut given, &line.body)?;
    }
    Ok(given)
}
