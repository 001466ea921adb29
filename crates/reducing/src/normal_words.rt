// The normal word, turn by turn.
ghost use Rattle.std.specs.Prelude.{◌≡◌, ◌≤◌, length};
ghost use Rattle.rewriting.specs.Normal.{word_turn, normal_of};
ghost use Rattle.layout.specs.Lines.{rules};
ghost use Rattle.reducing.specs.Answers.{WordTurnMade, reached_as, counted_as};

use crate::Normal;
use crate::searching::search;
use layout::lent::LinesUpTo;
use rewriting::word_buf::{WORD_LIMIT, WordBuf};
use words::Refusal;

// One turn: whether a replacement was due, and then it is made.
fn turn<const MOST: usize>(
    lines: LinesUpTo<MOST>,
    word: &mut WordBuf,
    spare: bool,
) -> Result<bool, Refusal>
    ensures { WordTurnMade (word_turn (rules lines.entry) spare word.old) result word.old word.new }
{
    let Some(found) = search(lines, word.as_slice()) else {
        return Ok(false);
    };
    if !spare {
        return Err(Refusal::Spent);
    }
    let left = lines.left(found.line);
    let right = lines.right(found.line);
    if WORD_LIMIT < word.len() - left.len() + right.len() {
        return Err(Refusal::Long);
    }
    word.replace(found.place, left.len(), right);
    Ok(true)
}

// The normal word of a word, in its place: how many replacements led to it. A refusal leaves what was reached.
pub fn reduce<const MOST: usize>(
    lines: LinesUpTo<MOST>,
    word: &mut WordBuf,
    allowance: u16,
) -> Result<u16, Refusal>
    ensures { reached_as result word.new ≡ normal_of (rules lines.entry) allowance word.old }
{
    let mut count = 0;
    // No range counts these turns: they end when none is due.
    while turn(lines, word, count < allowance)? {
        count += 1;
    }
    Ok(count)
}

// The normal word of a word, and how many replacements led to it.
pub fn normal_of<const MOST: usize>(
    lines: LinesUpTo<MOST>,
    word: &[u8],
    allowance: u16,
) -> Result<Normal, Refusal>
    requires { length word.now ≤ 128 }
    ensures { counted_as result ≡ normal_of (rules lines.entry) allowance word.now }
{
    let mut word = WordBuf::from_word(word);
    let count = reduce(lines, &mut word, allowance)?;
    Ok(Normal { word, count })
}
