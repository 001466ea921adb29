// Two words, each reduced to its normal word, compared.
ghost use Rattle.std.specs.Prelude.{◌≡◌, ◌≤◌, length};
ghost use Rattle.layout.specs.Lines.{rules};
ghost use Rattle.reducing.specs.Answers.{fares_as};
ghost use Rattle.reducing.specs.SameFare.{same_fare};

use crate::normal_words::reduce;
use layout::lent::LinesUpTo;
use rewriting::standing::same_word;
use rewriting::word_buf::WordBuf;
use words::Refusal;

// Two words, each reduced in its place, are the same fare.
pub fn same_reduced<const MOST: usize>(
    lines: LinesUpTo<MOST>,
    u: &mut WordBuf,
    v: &mut WordBuf,
    allowance: u16,
) -> Result<bool, Refusal>
    ensures { fares_as result ≡ same_fare (rules lines.entry) allowance u.old v.old }
{
    reduce(lines, u, allowance)?;
    reduce(lines, v, allowance)?;
    Ok(same_word(u.as_slice(), v.as_slice()))
}

// Two words of at most 128 letters are the same fare.
pub fn same_normal<const MOST: usize>(
    lines: LinesUpTo<MOST>,
    u: &[u8],
    v: &[u8],
    allowance: u16,
) -> Result<bool, Refusal>
    requires { (length u.now ≤ 128) × (length v.now ≤ 128) }
    ensures { fares_as result ≡ same_fare (rules lines.entry) allowance u.now v.now }
{
    let mut first = WordBuf::from_word(u);
    let mut second = WordBuf::from_word(v);
    same_reduced(lines, &mut first, &mut second, allowance)
}
