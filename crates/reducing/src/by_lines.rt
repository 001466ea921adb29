// The replacement due once more, line by line. That is faster than place by place where left words are long and few places can be replaced, as where
// completion finds the lineage of a new line.
ghost use Rattle.std.specs.Prelude.{◌≡◌, ◌<◌};
ghost use Rattle.rewriting.specs.Search.{search as searchOf};
ghost use Rattle.layout.specs.Lines.{rules};
ghost use Rattle.reducing.specs.Answers.{due_as, with_line};

use layout::lent::LinesUpTo;
use rewriting::Found;
use rewriting::finding::or_earlier;

// What is found with line j too, if it stands.
fn with_line<const MOST: usize>(
    lines: LinesUpTo<MOST>,
    j: usize,
    word: &[u8],
    found: Option<Found>,
) -> Option<Found>
    requires { j < lines.n }
    ensures { result ≡ with_line lines.entry.recs.now lines.entry.words.now j word.now found }
{
    if lines.stands(j) {
        or_earlier(found, j, lines.left(j), word)
    } else {
        found
    }
}

// The replacement due by the standing ones of the n lines.
#[tactic(auto, unfolding(layout::specs::Slices::Inside))]
pub fn search_by_lines<const MOST: usize>(lines: LinesUpTo<MOST>, word: &[u8]) -> Option<Found>
    ensures { due_as lines.entry.recs.now lines.entry.words.now result ≡ searchOf (rules lines.entry) word.now }
{
    let mut found = None;
    for j in 0..lines.n {
        found = with_line(lines, j, word, found);
    }
    found
}
