// Lines and equations as they are lent: the records, and the letters that these name.
ghost use Rattle.std.specs.Prelude.{◌≡◌, ◌*◌, ◌<◌, ◌≤◌, [], cond, ltb, length};
ghost use Rattle.rewriting.specs.Sheet.{side_limit};
ghost use Rattle.layout.specs.Sheets.{sides_width};
ghost use Rattle.layout.specs.Slices.{left_at, right_at, stands_by, steps_by, Inside};
ghost use Rattle.layout.specs.Lent.{inside_prop};

use crate::slices::{left_at, right_at};
use crate::{MOST_EQUATIONS, MOST_LINES, SHEET_WIDTH, TABLE_WIDTH};
use buffers::u16_at;

// The first n records of this width, at most so many, each with its letters inside the words. Left and right have a function each: they lie at
// other bytes, and one that took the side as a value would only choose between the two.
#[derive(Clone, Copy)]
pub struct Sides<'a, const WIDTH: usize, const MOST: usize> {
    pub recs: &'a [u8],
    pub words: &'a [u8],
    pub n: usize,
    ghost inside: { Inside WIDTH recs.now words.now n } by { inside_prop WIDTH recs.now words.now n },
    ghost few: { n ≤ MOST },
    ghost whole: { sides_width ≤ WIDTH },
}

// A sheet's equations; at most so many lines, and a table's.
pub type Equations<'a> = Sides<'a, SHEET_WIDTH, MOST_EQUATIONS>;

pub type LinesUpTo<'a, const MOST: usize> = Sides<'a, TABLE_WIDTH, MOST>;

pub type Lines<'a> = LinesUpTo<'a, MOST_LINES>;

#[tactic(auto, using(crate::proofs::SliceLaws::sides_placed, crate::proofs::SliceLaws::record_there))]
impl<'a, const WIDTH: usize, const MOST: usize> Sides<'a, WIDTH, MOST> {
    // The left word of number j.
    pub fn left(self, j: usize) -> &'a [u8]
        requires { j < self.n }
        ensures { (result.now ≡ left_at self.entry.recs.now self.entry.words.now (WIDTH * j)) × (length result.now ≤ side_limit) }
    {
        left_at(self.recs, self.words, WIDTH * j)
    }

    // The right word of number j.
    pub fn right(self, j: usize) -> &'a [u8]
        requires { j < self.n }
        ensures { (result.now ≡ right_at self.entry.recs.now self.entry.words.now (WIDTH * j)) × (length result.now ≤ side_limit) }
    {
        right_at(self.recs, self.words, WIDTH * j)
    }

    // The left word of number j, the empty one where there is no such number.
    pub fn any_left(self, j: usize) -> &'a [u8]
        ensures { (result.now ≡ cond (ltb j self.entry.n) (left_at self.entry.recs.now self.entry.words.now (WIDTH * j)) []) × (length result.now ≤ side_limit) }
    {
        if j < self.n {
            self.left(j)
        } else {
            &self.words[..0]
        }
    }

    // The right word of number j, the empty one where there is no such number.
    pub fn any_right(self, j: usize) -> &'a [u8]
        ensures { (result.now ≡ cond (ltb j self.entry.n) (right_at self.entry.recs.now self.entry.words.now (WIDTH * j)) []) × (length result.now ≤ side_limit) }
    {
        if j < self.n {
            self.right(j)
        } else {
            &self.words[..0]
        }
    }
}

#[tactic(auto, using(crate::proofs::SliceLaws::record_there), unfolding(crate::specs::Slices::stands_by))]
impl<'a, const MOST: usize> Sides<'a, TABLE_WIDTH, MOST> {
    // Line j stands.
    pub fn stands(self, j: usize) -> bool
        requires { j < self.n }
        ensures { result ≡ stands_by self.entry.recs.now j }
    {
        self.recs[TABLE_WIDTH * j + 6] == 1
    }

    // The number of steps of line j.
    pub fn steps(self, j: usize) -> usize
        requires { j < self.n }
        ensures { (result ≡ steps_by self.entry.recs.now j) × (result < 65536) }
    {
        u16_at(self.recs, TABLE_WIDTH * j + 4)
    }
}
