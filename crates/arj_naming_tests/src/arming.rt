// The arm of a disk that writes down its calls.
ghost use Rattle.std.specs.Prelude.{◌≡◌, ◌+◌, ◌<◌};

use arj_disk::{Disk, Outcome};
use arj_part_tests::Recorder;

/// Arms the disk. Its files stay.
pub fn arm_disk(disk: &mut Recorder, calls: u32, outcome: Outcome)
    requires { ⟦<Recorder as Disk>⟧.arms disk.old < 255 }
    ensures files { ⟦<Recorder as Disk>⟧.file disk.new ≡ ⟦<Recorder as Disk>⟧.file disk.old }
    ensures arms { ⟦<Recorder as Disk>⟧.arms disk.new ≡ ⟦<Recorder as Disk>⟧.arms disk.old + 1 }
{
    disk.disk.arm(calls.max(1), outcome);
}
