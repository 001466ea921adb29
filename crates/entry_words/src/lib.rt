// An entry's two words.
// First and second have a function each: one that took which of them would choose in every arm, and read no plainer.
#![tactic(auto)]

ghost use Rattle.std.specs.Prelude.{◌≡◌};
ghost use Rattle.rewriting.specs.Pairs.{reducts_of_lines};
ghost use Rattle.rewriting.specs.Sheet.{line_at};
ghost use Rattle.layout.specs.Lines.{equations as equationsOf};
ghost use Rattle.workspace.specs.Waiting.{two_words};
ghost use Rattle.workspace.specs.Desk.{state};

use layout::lent::Equations;
use rewriting::word_buf::WordBuf;
use workspace::{Desk, Entry, Overlap};

// The first reduct of an overlap of two lines.
fn first_of(desk: &Desk, o: Overlap) -> WordBuf
    ensures { result ≡ (reducts_of_lines o.place (line_at (state desk.now).lines o.n) (line_at (state desk.now).lines o.m)).first }
{
    let lines = desk.lines();
    let n = usize::from(o.n);
    let m = usize::from(o.m);
    WordBuf::first_reduct(
        lines.any_left(n),
        lines.any_right(n),
        lines.any_left(m),
        usize::from(o.place),
    )
}

// The second reduct.
fn second_of(desk: &Desk, o: Overlap) -> WordBuf
    ensures { result ≡ (reducts_of_lines o.place (line_at (state desk.now).lines o.n) (line_at (state desk.now).lines o.m)).second }
{
    let lines = desk.lines();
    let n = usize::from(o.n);
    let m = usize::from(o.m);
    WordBuf::second_reduct(
        lines.any_left(n),
        lines.any_left(m),
        lines.any_right(m),
        usize::from(o.place),
    )
}

// The entry's first word.
pub fn first_word(desk: &Desk, equations: Equations, e: Entry) -> WordBuf
    ensures { result ≡ (two_words (equationsOf equations.entry) (state desk.now).lines e).first }
{
    match e {
        Entry::OfEquation(k) => WordBuf::from_word(equations.any_left(usize::from(k))),
        Entry::OfDeleted(j) => WordBuf::from_word(desk.lines().any_left(usize::from(j))),
        Entry::OfOverlap(o) => first_of(desk, o),
    }
}

// The entry's second word.
pub fn second_word(desk: &Desk, equations: Equations, e: Entry) -> WordBuf
    ensures { result ≡ (two_words (equationsOf equations.entry) (state desk.now).lines e).second }
{
    match e {
        Entry::OfEquation(k) => WordBuf::from_word(equations.any_right(usize::from(k))),
        Entry::OfDeleted(j) => WordBuf::from_word(desk.lines().any_right(usize::from(j))),
        Entry::OfOverlap(o) => second_of(desk, o),
    }
}
