//! What texts do not say, and what holds of the topologies that they say.
ghost use Rattle.std.specs.Prelude.{◌≡◌, ◌≢◌, ℕ, List, Ok, Err};
ghost use Rattle.cm_topo.specs.Outcomes.{topology_in};
ghost use Rattle.cm_topo.specs.Topologies.{IsTopology};
ghost use Rattle.cm_topo.specs.declared.topology.Topology.{Topology};

use crate::TopoFault;

/// No text is at fault for want of memory.
pub fn no_text_wants_memory()
    ensures { (bytes : List ℕ) → topology_in bytes ≢ Err TopoFault.Memory }
{}

/// The topology that a text says is within its limits, and its names refer to what is there.
pub fn each_topology_is_sound()
    ensures { (bytes : List ℕ) (topology : Topology) → topology_in bytes ≡ Ok topology → IsTopology topology }
{}
