// A desk on which nothing stands yet.
ghost use Rattle.std.specs.Prelude.{◌≡◌, ◌≤◌, [], length};
ghost use Rattle.workspace.specs.Areas.{work_room};
ghost use Rattle.workspace.specs.Desk.{state};

use crate::{Desk, Nums};

impl<'a> Desk<'a> {
    // No line is made, and no entry waits; the buffer is as it was.
    pub fn start(work: &'a mut [u8]) -> Desk<'a>
        requires { work_room ≤ length work.old }
        ensures empty { state result ≡ record { lines = []; waiting = [] } }
        ensures nums { result.nums ≡ record { lines = 0; letters = 0; steps = 0; head = 0; count = 0 } }
        ensures bytes { result.work.now ≡ work.old }
        ensures held { result.work.ghost_name ≡ work.entry.ghost_name }
    {
        let nums = Nums {
            lines: 0,
            letters: 0,
            steps: 0,
            head: 0,
            count: 0,
        };
        Desk { work, nums }
    }
}
