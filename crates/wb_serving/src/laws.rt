//! Laws of serving.
ghost use Rattle.std.specs.Prelude.{◌≡◌, ◌<◌, ◌-◌, ◌^◌, ℕ};
ghost use Rattle.wb_outer.specs.Door.{DoorTold};
ghost use Rattle.wb_serving.specs.Machines.{MachineTold};
ghost use Rattle.wb_serving.specs.Runs.{Serves, unkept_of, faults_of};
ghost use Rattle.wb_serving.specs.declared.ends.Ended.{Ended};

use crate::ends::Ended;
use crate::machine::Machine;

/// Where the keeper's count did not rise, no reply says that the keeper failed.
pub fn all_is_kept<M: Machine>()
    ensures { (m m' : MachineTold M.State) (d d' : DoorTold) (limit : ℕ) (ended : Ended) (served : Serves M.law m m' d d' limit ended) →
        m'.faults ≡ m.faults → m'.faults < 2 ^ 64 - 1 → unkept_of served.visits ≡ 0 }
{}

/// Where the door's count did not rise, no connection ended by a fault, and the door gave each connection.
pub fn all_is_written<M: Machine>()
    ensures { (m m' : MachineTold M.State) (d d' : DoorTold) (limit : ℕ) (ended : Ended) (served : Serves M.law m m' d d' limit ended) →
        d'.faults ≡ d.faults → d'.faults < 2 ^ 64 - 1 → (faults_of served.visits ≡ 0) × (ended ≡ Ended.Fault → ⊥) }
{}
