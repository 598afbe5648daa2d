// What the lines so far say of an action.
ghost use Rattle.std.specs.Prelude.{◌≡◌, List, slice_get};
ghost use Rattle.std.specs.Option.{option_map};
ghost use Rattle.arj_journal.specs.declared.body.Line.{Line};
ghost use Rattle.arj_text.specs.Label.{name};
ghost use Rattle.arj_model.specs.Actions.{acts, ended, has_end};
ghost use Rattle.arj_reading.specs.Readable.{called, known, named};
ghost use Rattle.arj_reading.specs.Reading.{HasRead, above_in};

use crate::action::Action;
use crate::named::Named;
use crate::reading::Reading;
use arj_base::Uid;
use arj_journal::{Kind, Label};

/// The action with this label.
pub fn named_by(reading: &Reading, label: &Label) -> Option<Named>
    ensures { (lines : List Line) → HasRead lines reading.now → result ≡ named (acts lines) (name label.now) }
{
    let number = *reading.labels.get(label)?;
    named_at(reading, number)
}

/// The action with this Uid.
pub fn known_by(reading: &Reading, uid: &Uid) -> Option<Named>
    ensures { (lines : List Line) → HasRead lines reading.now → result ≡ known (acts lines) uid.now }
{
    let number = *reading.uids.get(uid)?;
    named_at(reading, number)
}

// The action with this number.
fn named_at(reading: &Reading, number: usize) -> Option<Named>
    ensures { result ≡ option_map (λ a. record { number = number; kind = a.kind }) (slice_get reading.now.list.items number) }
{
    let action = reading.list.get(number)?;
    Some(Named {
        number,
        kind: action.kind,
    })
}

/// The action that is kept at this number.
pub fn kept(reading: &Reading, number: usize) -> Option<Action>
    ensures { result ≡ slice_get reading.now.list.items number }
{
    let action = reading.list.get(number)?;
    Some(*action)
}

/// The number of the action that stands before one of this kind and parent on its path.
pub fn above(reading: &Reading, kind: Kind, parent: &Option<Label>) -> Option<usize>
    ensures { (lines : List Line) → HasRead lines reading.now → result ≡ above_in (acts lines) kind (option_map name parent.now) }
{
    match parent {
        None => None,
        Some(parent) => match kind {
            Kind::Independent => None,
            Kind::Top | Kind::Nested | Kind::Serial | Kind::Constituent => {
                reading.labels.get(parent).copied()
            }
        },
    }
}

/// Whether the commit of the action was called.
pub fn is_called(reading: &Reading, named: Named) -> bool
    ensures { (lines : List Line) → HasRead lines reading.now → result ≡ has_end (called lines) named.number }
{
    reading.called.contains_key(&named.number)
}

/// Whether the action has ended.
pub fn is_ended(reading: &Reading, named: Named) -> bool
    ensures { (lines : List Line) → HasRead lines reading.now → result ≡ has_end (ended lines) named.number }
{
    reading.ended.contains_key(&named.number)
}
