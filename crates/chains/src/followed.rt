// Condition 3, first part: each line's chain, followed step by step from its left word, ends at its right word.
ghost use Rattle.std.specs.Prelude.{◌≡◌, ◌+◌, ◌*◌, ◌<◌, ◌≤◌, length, drop};
ghost use Rattle.layout.specs.Header.{step_width};
ghost use Rattle.layout.specs.Slices.{steps_by, steps_from};
ghost use Rattle.layout.specs.Lines.{equations as equationsOf, lines_with};
ghost use Rattle.layout.specs.Tables.{read_steps};
ghost use Rattle.rewriting.specs.Steps.{leads};
ghost use Rattle.chains.specs.Chains.{chain_verdict};
ghost use Rattle.chains.specs.Answers.{verdict_as, led_as, chain_of};

use crate::Cited;
use layout::lent::{Equations, Lines};
use rewriting::standing::same_word;
use rewriting::word_buf::WordBuf;
use words::Refusal;

impl<'a> Cited<'a> {
    // The count steps from the step q on, followed from the word; whether all could be taken.
    fn follow(self, word: &mut WordBuf, q: usize, count: usize) -> bool
        requires { step_width * (q + count) ≤ length self.steps.now }
        ensures { led_as result word.new ≡ leads (equationsOf self.entry.equations) (lines_with self.entry.steps.now self.entry.lines)
            (read_steps count (drop (step_width * q) self.entry.steps.now)) word.old }
    {
        for i in 0..count {
            if !self.step_at(word, q + i) {
                return false;
            }
        }
        true
    }

    // The chain of line j, whose count steps start at the step q, leads from its left to its right word.
    fn chain_holds(self, j: usize, q: usize, count: usize) -> bool
        requires { (j < self.lines.n) × (step_width * (q + count) ≤ length self.steps.now) × (q ≡ steps_from self.lines.recs.now 0 j)
            × (count ≡ steps_by self.lines.recs.now j) }
        ensures { result ≡ chain_of (equationsOf self.entry.equations) (lines_with self.entry.steps.now self.entry.lines) j }
    {
        let mut word = WordBuf::from_word(self.lines.left(j));
        self.follow(&mut word, q, count) && same_word(word.as_slice(), self.lines.right(j))
    }
}

// The lowest line whose chain fails is refusal 12.
pub fn chains(equations: Equations, lines: Lines, steps: &[u8]) -> Result<(), Refusal>
    requires { (step_width * steps_from lines.recs.now 0 lines.n ≤ length steps.now) × (length steps.now ≤ 65536) }
    ensures { verdict_as result ≡ chain_verdict (equationsOf equations.entry) (lines_with steps.now lines.entry) }
{
    let cited = Cited {
        equations,
        lines,
        steps,
    };
    let mut q = 0;
    for j in 0..lines.n {
        let count = lines.steps(j);
        if !cited.chain_holds(j, q, count) {
            return Err(Refusal::Chain(j as u16));
        }
        q += count;
    }
    Ok(())
}
