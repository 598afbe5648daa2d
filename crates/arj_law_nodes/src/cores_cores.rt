// What the files of parts and of cores say.
ghost use Rattle.arj_law_nodes.specs.nodes.Cores.{SaysReadings};
ghost use Rattle.arj_law_nodes.specs.nodes.Readings.{reading_of};

use arj_core::Core;
use arj_node::NodeCore;
use arj_parts::NodeParts;
use arj_store::ObjectStore;

/// So it is of cores of parts over any object store. It does nothing when it runs.
pub fn cores_say_their_readings<O: ObjectStore + Drop>()
    ensures { SaysReadings ⟦<NodeCore<NodeParts<O>> as Core>⟧ (reading_of O.ObjectStore) }
{}
