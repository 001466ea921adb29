// One turn of a completion.

#![tactic(auto)]

mod making; // the new line, with its lineage
mod settling; // the two normal words, and which is left

ghost use Rattle.layout.specs.Lines.{equations as equationsOf};
ghost use Rattle.workspace.specs.Waiting.{two_words};
ghost use Rattle.workspace.specs.Desk.{state};
ghost use Rattle.turns.specs.Turn.{settle};
ghost use Rattle.turns.specs.Outcomes.{Settled, TurnMade};

use entry_words::{first_word, second_word};
use layout::lent::Equations;
use rewriting::word_buf::WordBuf;
use words::{Order, Refusal};
use workspace::{Desk, Entry};

// One of an entry's words, with its normal word and the number of replacements that led to it.
#[derive(Clone, Copy)]
pub struct Reduced<'a> {
    pub word: &'a WordBuf,
    pub normal: &'a WordBuf,
    pub count: u16,
}

// An entry that has been taken.
fn treat(desk: &mut Desk, order: Order, equations: Equations, e: Entry) -> Result<(), Refusal>
    ensures { Settled desk.old desk.new result (settle order equations.entry.n (state desk.old) e
        (two_words (equationsOf equations.entry) (state desk.old).lines e)) }
{
    let first = first_word(desk, equations, e);
    let second = second_word(desk, equations, e);
    settling::settle(desk, order, equations.n, e, &first, &second)
}

// The oldest entry is taken and treated; false where none waited.
pub fn turn(desk: &mut Desk, order: Order, equations: Equations) -> Result<bool, Refusal>
    ensures { TurnMade order (equationsOf equations.entry) desk.old desk.new result }
{
    match desk.pop() {
        None => Ok(false),
        Some(e) => {
            treat(desk, order, equations, e)?;
            Ok(true)
        }
    }
}
