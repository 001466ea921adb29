// The work buffer is left with zeros.
ghost use Rattle.std.specs.Prelude.{◌≡◌, ◌≤◌, length};
ghost use Rattle.workspace.specs.Areas.{work_room};
ghost use Rattle.completing.specs.Calls.{cleared};

use workspace::areas::WORK_ROOM;

// The bytes of the work room become zero.
pub fn clear(work: &mut [u8])
    requires { work_room ≤ length work.old }
    ensures { work.new ≡ cleared work.old }
{
    work[..WORK_ROOM].fill(0);
}
