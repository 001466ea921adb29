// The replacement due, over a table's standing lines.
ghost use Rattle.std.specs.Prelude.{◌≡◌, ◌&&◌, ◌+◌, ◌*◌, ◌<◌, ◌≤◌, length};
ghost use Rattle.rewriting.specs.Standing.{stands_at};
ghost use Rattle.rewriting.specs.Search.{rule_at, search as searchOf};
ghost use Rattle.layout.specs.Slices.{stands_by, line_left};
ghost use Rattle.layout.specs.Lines.{rules};
ghost use Rattle.reducing.specs.Answers.{chosen_as, due_as};

use layout::lent::LinesUpTo;
use rewriting::Found;
use rewriting::standing::stands_at;

// Line j stands, and its left word stands in the word at the place p.
fn line_at<const MOST: usize>(lines: LinesUpTo<MOST>, j: usize, word: &[u8], p: usize) -> bool
    requires { j < lines.n }
    ensures { result ≡ stands_by lines.entry.recs.now j && stands_at (line_left lines.entry.recs.now lines.entry.words.now j) word.now p }
{
    lines.stands(j) && stands_at(lines.left(j), word, p)
}

// Of the n lines, the standing one of lowest number whose left word stands in the word at the place p. (With `find` the check asks the closure for
// lines of every number, as their most is a parameter.)
#[tactic(auto, unfolding(layout::specs::Slices::Inside))]
fn rule_at<const MOST: usize>(lines: LinesUpTo<MOST>, word: &[u8], p: usize) -> Option<usize>
    ensures { chosen_as lines.entry.recs.now lines.entry.words.now result
        ≡ rule_at (rules lines.entry) word.now p }
{
    for j in 0..lines.n {
        if line_at(lines, j, word, p) {
            return Some(j);
        }
    }
    None
}

// The replacement due by the standing ones of the n lines. (Out of line: in the loop of the turns it would share registers with what these need.)
#[inline(never)]
pub fn search<const MOST: usize>(lines: LinesUpTo<MOST>, word: &[u8]) -> Option<Found>
    ensures { due_as lines.entry.recs.now lines.entry.words.now result ≡ searchOf (rules lines.entry) word.now }
{
    for place in 0..word.len() + 1 {
        if let Some(line) = rule_at(lines, word, place) {
            return Some(Found { place, line });
        }
    }
    None
}
