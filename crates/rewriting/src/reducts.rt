// The two words of an overlap, where one word is laid at the place k of another. No place is too far. The two differ in what is replaced by what.
ghost use Rattle.std.specs.Prelude.{◌≡◌, ◌+◌, ◌-◌, ◌≤◌, min, length};
ghost use Rattle.rewriting.specs.Pairs.{first_reduct, second_reduct};
ghost use Rattle.rewriting.specs.Made.{Made};

use crate::replacing::{join, replace_over};

// The first reduct, at the start of dst: right, and what of the word laid sticks out of left. With left for right it is the peak.
#[tactic(auto, using(crate::proofs::ReductLaws::first_made))]
pub fn first_reduct(left: &[u8], right: &[u8], laid: &[u8], k: usize, dst: &mut [u8]) -> usize
    requires { length laid.now + length right.now ≤ length dst.old }
    ensures { Made (first_reduct k left.now right.now laid.now) dst.old dst.new result }
{
    replace_over(laid, 0, left.len().saturating_sub(k), right, dst)
}

// The second reduct, at the start of dst: the word laid is replaced by other. A place behind left keeps what of the word laid stands before it.
#[tactic(auto, using(crate::proofs::ReductLaws::second_made, crate::proofs::ReductLaws::before_counted, crate::proofs::ReductLaws::far_fits))]
pub fn second_reduct(left: &[u8], laid: &[u8], other: &[u8], k: usize, dst: &mut [u8]) -> usize
    requires { length left.now + (min (k - length left.now) (length laid.now) + length other.now) ≤ length dst.old }
    ensures { Made (second_reduct k left.now laid.now other.now) dst.old dst.new result }
{
    if k <= left.len() {
        replace_over(left, k, laid.len(), other, dst)
    } else {
        let before = (k - left.len()).min(laid.len());
        join(left, &laid[..before], other, dst)
    }
}
