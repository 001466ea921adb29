// Lines are made and deleted.
ghost use Rattle.std.specs.Prelude.{◌≡◌, ◌+◌, ◌<◌, ◌≤◌, ◌++◌, length, Ok};
ghost use Rattle.rewriting.specs.Sheet.{side_limit};
ghost use Rattle.buffers.specs.Written.{written};
ghost use Rattle.words.specs.Refusal.{answered};
ghost use Rattle.workspace.specs.Waiting.{strike, new_line, with_line};
ghost use Rattle.workspace.specs.Areas.{most_lines, most_steps};
ghost use Rattle.workspace.specs.Work.{steps_noted};
ghost use Rattle.workspace.specs.Desk.{state, Makes, Leaves};

use crate::areas::LETTERS_START;
use crate::{Desk, Nums};
use buffers::put;
use layout::TABLE_WIDTH;
use writing::put_record;

// Writes a line's words, one behind the other.
fn put_sides(work: &mut [u8], at: usize, left: &[u8], right: &[u8])
    requires { at + length left.now + length right.now ≤ length work.old }
    ensures { work.new ≡ written work.old at (left.now ++ right.now) }
{
    put(work, at, left);
    put(work, at + left.len(), right);
}

impl<'a> Desk<'a> {
    // A new line that stands, with the next steps of the steps area as its lineage.
    pub fn add_line(&mut self, left: &[u8], right: &[u8], steps: usize)
        requires { (self.old.nums.lines < most_lines) × (length left.now ≤ side_limit) × (length right.now ≤ side_limit)
            × (self.old.nums.steps + steps ≤ most_steps) }
        ensures { Makes self.old (self.old.nums.lines + 1) (self.old.nums.steps + steps) self.new (Ok tt)
            (answered (with_line (new_line left.now right.now (steps_noted self.old.work.now self.old.nums.steps steps))
            (state self.old))) }
    {
        let nums = self.nums;
        let work = &mut *self.work;
        put_record(
            work,
            TABLE_WIDTH * nums.lines,
            nums.letters,
            left.len(),
            right.len(),
            steps,
            true,
        );
        put_sides(work, LETTERS_START + nums.letters, left, right);
        self.nums = Nums {
            lines: nums.lines + 1,
            letters: nums.letters + left.len() + right.len(),
            steps: nums.steps + steps,
            ..nums
        };
    }

    // Line j is deleted: it keeps its words and its steps.
    pub fn strike(&mut self, j: usize)
        requires { j < self.old.nums.lines }
        ensures { Leaves self.old self.new (Ok tt) (answered (strike j (state self.old))) }
    {
        self.work[TABLE_WIDTH * j + 6] = 0;
    }
}
