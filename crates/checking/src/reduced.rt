// Condition 4: no standing left word holds another standing line's left word.
ghost use Rattle.std.specs.Prelude.{◌≡◌, [], ◌<◌, ◌≤◌};
ghost use Rattle.layout.specs.Lines.{lines as linesOf};
ghost use Rattle.checking.specs.Reduced.{holds, holds_one, reduced_verdict};
ghost use Rattle.chains.specs.Answers.{verdict_as};

use layout::lent::Lines;
use rewriting::standing::stands_in;
use words::Refusal;

// Line i's left word holds the left word of another standing line m.
fn holds_line(lines: Lines, i: usize, m: usize) -> bool
    requires { (i < lines.n) × (m < lines.n) }
    ensures { result ≡ holds (linesOf lines.entry) i m }
{
    lines.stands(m) && i != m && stands_in(lines.left(m), lines.left(i))
}

// Line i stands and holds one.
fn holds_one(lines: Lines, i: usize) -> bool
    requires { i < lines.n }
    ensures { result ≡ holds_one (linesOf lines.entry) i }
{
    lines.stands(i) && (0..lines.n).any(|m| holds_line(lines, i, m))
}

// The lowest line that holds one is refusal 14.
pub fn reducedness(lines: Lines) -> Result<(), Refusal>
    ensures { verdict_as result ≡ reduced_verdict (linesOf lines.entry) }
{
    for i in 0..lines.n {
        if holds_one(lines, i) {
            return Err(Refusal::Reduced(i as u16));
        }
    }
    Ok(())
}
