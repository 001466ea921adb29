// A word with a part replaced, into a buffer that is lent.
ghost use Rattle.std.specs.Prelude.{◌≡◌, ◌++◌, ◌+◌, ◌≤◌, length};
ghost use Rattle.rewriting.specs.Standing.{replace_at};
ghost use Rattle.rewriting.specs.Made.{Made};

use buffers::put;

// Three pieces, one behind the other, at the start of dst; their length is given.
pub fn join(a: &[u8], b: &[u8], c: &[u8], dst: &mut [u8]) -> usize
    requires { length a.now + (length b.now + length c.now) ≤ length dst.old }
    ensures { Made (a.now ++ (b.now ++ c.now)) dst.old dst.new result }
{
    let last = a.len() + b.len();
    put(dst, 0, a);
    put(dst, a.len(), b);
    put(dst, last, c);
    last + c.len()
}

// The word with the n letters from the place p on replaced by right, written to the start of dst; its length is given.
#[tactic(auto, using(crate::proofs::ReplacingLaws::front_counted, crate::proofs::ReplacingLaws::pieces_fit, crate::proofs::ReplacingLaws::pieces_made))]
pub fn replace_into(word: &[u8], p: usize, n: usize, right: &[u8], dst: &mut [u8]) -> usize
    requires { (p + n ≤ length word.now) × (length word.now + length right.now ≤ length dst.old + n) }
    ensures { Made (replace_at word.now p n right.now) dst.old dst.new result }
{
    join(&word[..p], right, &word[p + n..], dst)
}

// The same where fewer than n letters may stand from the place p on: then all of them are replaced.
#[tactic(auto, using(crate::proofs::ReplacingLaws::over_made))]
pub fn replace_over(word: &[u8], p: usize, n: usize, right: &[u8], dst: &mut [u8]) -> usize
    requires { (p ≤ length word.now) × (length word.now + length right.now ≤ length dst.old) }
    ensures { Made (replace_at word.now p n right.now) dst.old dst.new result }
{
    let there = word.len() - p;
    if there < n {
        replace_into(word, p, there, right, dst)
    } else {
        replace_into(word, p, n, right, dst)
    }
}
