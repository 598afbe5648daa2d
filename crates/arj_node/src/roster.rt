// What a node keeps of its run's header.
ghost use Rattle.std.specs.Prelude.{◌≡◌, ◌∷◌, [], ℕ, IfOk, OnOk, option_copied};
ghost use Rattle.arj_node.specs.Roster.{AreClasses, class_kept, one_class, IsOf};
ghost use Rattle.arj_protocol.specs.Effect.{either};

use arj_base::Class;
use arj_journal::{Header, ObjectLine};
use std::alloc::{AllocError, Global};
use std::collections::BTreeMap;

/// How many nodes a run has, and the class of each object.
#[derive(Drop)]
pub struct Roster {
    pub nodes: u8,
    pub classes: BTreeMap<u16, Class>,
}

impl Roster {
    /// Of this header.
    pub fn new(alloc: Global, header: &Header) -> Result<Roster, AllocError>
        ensures { IfOk result (IsOf header.now) }
    {
        let classes = classes_of(alloc, header.objects.as_slice())?;
        Ok(Roster {
            nodes: header.nodes,
            classes,
        })
    }

    /// The class of an object, None where there is no such object.
    pub fn class(&self, x: u16) -> Option<Class>
        ensures { result ≡ class_kept self.now.classes x }
    {
        self.classes.get(&x).copied()
    }
}

// The classes of these objects.
fn classes_of(alloc: Global, objects: &[ObjectLine]) -> Result<BTreeMap<u16, Class>, AllocError>
    ensures { IfOk result (AreClasses objects.now) }
{
    let mut classes = BTreeMap::new(alloc);
    for object in objects {
        put_class(&mut classes, object)?;
    }
    Ok(classes)
}

// The class of one more object: of two with one number the first counts.
fn put_class(classes: &mut BTreeMap<u16, Class>, object: &ObjectLine) -> Result<(), AllocError>
    ensures { OnOk result ((x : ℕ) → class_kept classes.new x ≡ either (class_kept classes.old x) (one_class x object.now)) }
{
    if !classes.contains_key(&object.x) {
        classes.insert(object.x, object.value.own_class())?;
    }
    Ok(())
}
