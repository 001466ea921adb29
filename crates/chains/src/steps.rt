// One step of a chain: the side that it names is replaced by the other, at its place in the word.
ghost use Rattle.std.specs.Prelude.{◌≡◌, ◌+◌, ◌*◌, ◌≤◌, length};
ghost use Rattle.rewriting.specs.Sheet.{side_limit};
ghost use Rattle.layout.specs.Header.{step_width};
ghost use Rattle.layout.specs.Slices.{step_in};
ghost use Rattle.layout.specs.Lines.{equations as equationsOf, lines_with};
ghost use Rattle.rewriting.specs.Steps.{exchange as exchangeOf, step_to};
ghost use Rattle.chains.specs.Answers.{led_as, by_sides, step_by};

use crate::Cited;
use layout::slices::{step_back, step_place, step_reference};
use rewriting::standing::stands_at;
use rewriting::word_buf::{WORD_LIMIT, WordBuf};

// One word replaced by another at the place p, where it stands there and the new word is not too long; whether it was.
fn exchange(word: &mut WordBuf, from: &[u8], by: &[u8], p: usize) -> bool
    requires { length by.now ≤ side_limit }
    ensures { led_as result word.new ≡ exchangeOf from.now by.now p word.old }
{
    if !stands_at(from, word.as_slice(), p) || WORD_LIMIT < word.len() - from.len() + by.len() {
        return false;
    }
    word.replace(p, from.len(), by);
    true
}

// The named side replaced by the other at the place p: left by right, or back, which a step stores as a bit.
fn exchange_sides(word: &mut WordBuf, left: &[u8], right: &[u8], back: bool, p: usize) -> bool
    requires { (length left.now ≤ side_limit) × (length right.now ≤ side_limit) }
    ensures { led_as result word.new ≡ by_sides left.now right.now back p word.old }
{
    if back {
        exchange(word, right, left, p)
    } else {
        exchange(word, left, right, p)
    }
}

impl<'a> Cited<'a> {
    // One step: its reference names an equation or a line; where there is no such line, both sides are empty.
    fn step_by(self, word: &mut WordBuf, reference: usize, back: bool, p: usize) -> bool
        ensures { led_as result word.new ≡ step_by self.entry.equations.recs.now self.entry.equations.words.now self.entry.equations.n
            self.entry.lines.recs.now self.entry.lines.words.now self.entry.lines.n reference back p word.old }
    {
        if reference < self.equations.n {
            let left = self.equations.left(reference);
            let right = self.equations.right(reference);
            exchange_sides(word, left, right, back, p)
        } else {
            let j = reference - self.equations.n;
            exchange_sides(
                word,
                self.lines.any_left(j),
                self.lines.any_right(j),
                back,
                p,
            )
        }
    }

    // The step i of all; whether it could be taken.
    pub fn step_at(self, word: &mut WordBuf, i: usize) -> bool
        requires { step_width * i + step_width ≤ length self.steps.now }
        ensures { led_as result word.new ≡ step_to (equationsOf self.entry.equations) (lines_with self.entry.steps.now self.entry.lines)
            (step_in self.entry.steps.now i) word.old }
    {
        let reference = step_reference(self.steps, i);
        let back = step_back(self.steps, i);
        let p = usize::from(step_place(self.steps, i));
        self.step_by(word, reference, back, p)
    }
}
