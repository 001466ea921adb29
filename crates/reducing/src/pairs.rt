// The reducts of two lines, the left word of the second laid at a place of the first's, compared.
ghost use Rattle.std.specs.Prelude.{◌≡◌, [], ◌<◌};
ghost use Rattle.rewriting.specs.Pairs.{reducts_of_lines};
ghost use Rattle.layout.specs.Slices.{line_in};
ghost use Rattle.layout.specs.Lines.{rules};
ghost use Rattle.reducing.specs.Answers.{fares_as};
ghost use Rattle.reducing.specs.SameFare.{same_reducts};

use crate::same_fare::same_reduced;
use layout::lent::LinesUpTo;
use rewriting::word_buf::WordBuf;
use words::Refusal;

// The two reducts of the lines i and m at the place k are the same fare.
pub fn pair_same<const MOST: usize>(
    lines: LinesUpTo<MOST>,
    i: usize,
    m: usize,
    k: usize,
    allowance: u16,
) -> Result<bool, Refusal>
    requires { (i < lines.n) × (m < lines.n) }
    ensures { fares_as result ≡ same_reducts (rules lines.entry) allowance
        (reducts_of_lines k (line_in lines.entry.recs.now [] lines.entry.words.now i) (line_in lines.entry.recs.now [] lines.entry.words.now m)) }
{
    let left = lines.left(i);
    let right = lines.right(i);
    let laid = lines.left(m);
    let other = lines.right(m);
    let mut first = WordBuf::first_reduct(left, right, laid, k);
    let mut second = WordBuf::second_reduct(left, laid, other, k);
    same_reduced(lines, &mut first, &mut second, allowance)
}
