// Lines that the new rule reduces are deleted, and wait.
ghost use Rattle.std.specs.Prelude.{◌≡◌, ◌<◌};
ghost use Rattle.words.specs.Counting.{in_turn};
ghost use Rattle.rewriting.specs.Sheet.{line_at};
ghost use Rattle.workspace.specs.Desk.{state, Leaves};
ghost use Rattle.new_lines.specs.NewLine.{reducible_by, delete_by};

use rewriting::standing::stands_in;
use words::Refusal;
use workspace::{Desk, Entry};

// Line j stands, and its left or right word is reducible by the rule with this left word.
fn reducible_by(desk: &Desk, j: usize, left: &[u8]) -> bool
    requires { j < desk.now.nums.lines }
    ensures { result ≡ reducible_by left.now (line_at (state desk.now).lines j) }
{
    let lines = desk.lines();
    lines.stands(j) && (stands_in(left, lines.left(j)) || stands_in(left, lines.right(j)))
}

// Line j, if it is reducible, is deleted and waits.
fn delete_by(desk: &mut Desk, j: usize, left: &[u8]) -> Result<(), Refusal>
    requires { j < desk.old.nums.lines }
    ensures { Leaves desk.old desk.new result (delete_by left.now j (state desk.old)) }
{
    if !reducible_by(desk, j, left) {
        return Ok(());
    }
    desk.strike(j);
    desk.push(Entry::OfDeleted(j as u8))
}

// The lines in turn.
pub fn sweep(desk: &mut Desk, left: &[u8]) -> Result<(), Refusal>
    ensures { Leaves desk.old desk.new result (in_turn (delete_by left.now) 0 desk.old.nums.lines (state desk.old)) }
{
    for j in 0..desk.nums.lines {
        delete_by(desk, j, left)?;
    }
    Ok(())
}
