// The records of a price file: offset, length, a zero byte, fare. They are judged here by their place, before they are `Prices`.
ghost use Rattle.std.specs.Prelude.{◌≡◌, ◌+◌, ◌*◌, ◌<◌, ◌≤◌, length, drop};
ghost use Rattle.prices.specs.Files.{price_width, price_kind, word_length, price_fits, prices_fit};

use crate::{FARE_LIMIT, PRICE_WIDTH, WORD_LIMIT};
use buffers::{u16_at, u32_at};

// The letters of the word of the record at the byte p.
fn word_length(recs: &[u8], p: usize) -> usize
    requires { p + price_width ≤ length recs.now }
    ensures { (result ≡ word_length (drop p recs.now)) × (result < 256) }
{
    usize::from(recs[p + 2])
}

// The record at the byte p fits, where the words from o on are left: the offset is the one due, the word is short, the byte behind its length
// is zero, the fare is low enough, and the letters are there.
#[tactic(auto, unfolding(crate::specs::Files::price_fits))]
fn price_fits(recs: &[u8], p: usize, words: &[u8], o: usize) -> bool
    requires { (p + price_width ≤ length recs.now) × (o ≤ length words.now) }
    ensures { result ≡ price_fits o (drop p recs.now) (drop o words.now) }
{
    let length = word_length(recs, p);
    u16_at(recs, p) == o
        && length <= WORD_LIMIT
        && recs[p + 3] == 0
        && u32_at(recs, p + 4) <= FARE_LIMIT
        && length <= words.len() - o
}

// The n records fit the words, one behind the other, and no letter is left.
#[tactic(auto, using(crate::proofs::RecordLaws::judging))]
pub fn prices_fit(recs: &[u8], words: &[u8], n: usize) -> bool
    requires { (length recs.now ≡ price_width * n) × (n ≤ price_kind.pairs) }
    ensures { result ≡ prices_fit 0 n recs.now words.now }
{
    let mut o = 0;
    for j in 0..n {
        if !price_fits(recs, PRICE_WIDTH * j, words, o) {
            return false;
        }
        o += word_length(recs, PRICE_WIDTH * j);
    }
    o == words.len()
}
