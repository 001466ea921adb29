// Condition 3, second part: each line's left word is greater than its right word.
ghost use Rattle.std.specs.Prelude.{◌≡◌, ◌<◌};
ghost use Rattle.words.specs.Order.{order_by};
ghost use Rattle.layout.specs.Slices.{line_left, line_right};
ghost use Rattle.layout.specs.Lines.{lines as linesOf};
ghost use Rattle.chains.specs.Chains.{is_greater, direction_verdict};
ghost use Rattle.chains.specs.Answers.{verdict_as};

use layout::lent::Lines;
use words::{Order, Refusal, compare_by};

// The left word of line j is greater than its right word.
fn is_directed(order: Order, lines: Lines, j: usize) -> bool
    requires { j < lines.n }
    ensures { result ≡ is_greater (order_by order (line_left lines.entry.recs.now lines.entry.words.now j)
        (line_right lines.entry.recs.now lines.entry.words.now j)) }
{
    compare_by(order, lines.left(j), lines.right(j)).is_gt()
}

// The lowest line whose left word is not greater is refusal 13.
pub fn directions(order: Order, lines: Lines) -> Result<(), Refusal>
    ensures { verdict_as result ≡ direction_verdict order (linesOf lines.entry) }
{
    for j in 0..lines.n {
        if !is_directed(order, lines, j) {
            return Err(Refusal::Direction(j as u16));
        }
    }
    Ok(())
}
