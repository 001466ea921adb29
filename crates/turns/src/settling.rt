// The normal words of an entry's first word, then of its second, and which of them is left.
ghost use Rattle.std.specs.Prelude.{◌≡◌, ◌≤◌};
ghost use Rattle.rewriting.specs.Normal.{normal_of, own_allowance};
ghost use Rattle.reducing.specs.Answers.{reached_as};
ghost use Rattle.rewriting.specs.Sheet.{rules_of};
ghost use Rattle.workspace.specs.Desk.{state};
ghost use Rattle.turns.specs.Turn.{orient, settle};
ghost use Rattle.turns.specs.Outcomes.{Settled, Reaches, counted};

use crate::Reduced;
use crate::making::make_line;
use reducing::{OWN_ALLOWANCE, reduce};
use rewriting::standing::same_word;
use rewriting::word_buf::WordBuf;
use std::cmp::Ordering;
use words::{Order, Refusal, compare_by};
use workspace::{Desk, Entry};

// The normal word of a word by the standing lines of the state, in its place.
fn reduce_in(desk: &Desk, word: &mut WordBuf) -> Result<u16, Refusal>
    ensures { reached_as result word.new ≡ normal_of (rules_of (state desk.now).lines) own_allowance word.old }
{
    reduce(desk.lines(), word, OWN_ALLOWANCE)
}

// Equal normal words leave the state as it is; else the greater becomes left, the smaller right.
fn orient(
    desk: &mut Desk,
    order: Order,
    cited: usize,
    e: Entry,
    x: Reduced,
    y: Reduced,
) -> Result<(), Refusal>
    requires { (cited ≤ 64) × Reaches (rules_of (state desk.old).lines) x × Reaches (rules_of (state desk.old).lines) y }
    ensures { Settled desk.old desk.new result
        (orient order cited (state desk.old) e (record { first = x.entry.word.now; second = y.entry.word.now }) (counted x.entry) (counted y.entry)) }
{
    let first = x.normal.as_slice();
    let second = y.normal.as_slice();
    if same_word(first, second) {
        return Ok(());
    }
    match compare_by(order, first, second) {
        Ordering::Less => make_line(desk, cited, e, true, y, x),
        Ordering::Equal => Err(Refusal::Unordered),
        Ordering::Greater => make_line(desk, cited, e, false, x, y),
    }
}

// The normal word of the first word, then of the second.
pub fn settle(
    desk: &mut Desk,
    order: Order,
    cited: usize,
    e: Entry,
    first: &WordBuf,
    second: &WordBuf,
) -> Result<(), Refusal>
    requires { cited ≤ 64 }
    ensures { Settled desk.old desk.new result
        (settle order cited (state desk.old) e (record { first = first.now; second = second.now })) }
{
    let mut x = WordBuf::from_word(first.as_slice());
    let xs = reduce_in(desk, &mut x)?;
    let mut y = WordBuf::from_word(second.as_slice());
    let ys = reduce_in(desk, &mut y)?;
    orient(
        desk,
        order,
        cited,
        e,
        Reduced {
            word: first,
            normal: &x,
            count: xs,
        },
        Reduced {
            word: second,
            normal: &y,
            count: ys,
        },
    )
}
