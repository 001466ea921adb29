// The lines of the state, read from the desk.
ghost use Rattle.std.specs.Prelude.{◌≡◌, ◌*◌, ◌≤◌, length};
ghost use Rattle.rewriting.specs.Sheet.{rules_of};
ghost use Rattle.layout.specs.Header.{step_width};
ghost use Rattle.layout.specs.Slices.{steps_from};
ghost use Rattle.layout.specs.Lines.{rules, lines_with};
ghost use Rattle.workspace.specs.Areas.{record_area, step_area, letter_area};
ghost use Rattle.workspace.specs.Desk.{state};

use crate::Desk;
use crate::areas::{LETTERS_START, RING_START, STEPS_START};
use layout::lent::Lines;

impl<'a> Desk<'a> {
    // The lines of the state.
    pub fn lines(&self) -> Lines<'_>
        ensures recs { result.recs.now ≡ record_area self.now.work.now }
        ensures words { result.words.now ≡ letter_area self.now.work.now }
        ensures n { result.n ≡ self.now.nums.lines }
        ensures rules { rules result ≡ rules_of (state self.now).lines }
        ensures lines { lines_with (step_area self.now.work.now) result ≡ (state self.now).lines }
    {
        Lines {
            recs: &self.work[..STEPS_START],
            words: &self.work[LETTERS_START..RING_START],
            n: self.nums.lines,
        }
    }

    // Their steps, and the bytes behind these.
    pub fn steps(&self) -> &[u8]
        ensures steps { result.now ≡ step_area self.now.work.now }
        ensures there { step_width * steps_from (record_area self.now.work.now) 0 self.now.nums.lines ≤ length result.now }
        ensures few { length result.now ≤ 65536 }
    {
        &self.work[STEPS_START..LETTERS_START]
    }
}
