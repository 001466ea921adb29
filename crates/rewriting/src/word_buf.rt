// A word in memory of its own, and a word with a part replaced.
ghost use Rattle.std.specs.Prelude.{◌≡◌, ◌+◌, ◌-◌, ◌≤◌, ◌++◌, [], min, length};
ghost use Rattle.rewriting.specs.Standing.{replace_at};
ghost use Rattle.rewriting.specs.Pairs.{first_reduct, second_reduct};

use crate::reducts::{first_reduct, second_reduct};
use crate::replacing::{join, replace_into};
use buffers::put;
use std::marker::Model;

// The most letters of a word that is reduced or exchanged.
pub const WORD_LIMIT: usize = 128;

// A word of at most 128 letters. Equality is not derived: it would read behind the word's end.
#[derive(Drop)]
pub struct WordBuf {
    letters: [u8; WORD_LIMIT],
    len: usize,
}

impl Model for WordBuf {
    ghost use Rattle.std.specs.Prelude.{ℕ, List, ◌≤◌, take};

    ghost Value = { List ℕ };

    ghost view = { λ b. take b.len b.letters };

    ghost invariant = { λ b. b.len ≤ 128 };
}

#[tactic(auto, using(crate::proofs::MadeLaws::made_front, crate::proofs::MadeLaws::made_counted, buffers::proofs::WrittenLaws::put_front))]
impl WordBuf {
    // The empty word.
    pub fn new() -> WordBuf
        ensures { result ≡ [] }
    {
        WordBuf {
            letters: [0; WORD_LIMIT],
            len: 0,
        }
    }

    // Its letters.
    pub fn as_slice(&self) -> &[u8]
        ensures word { result.now ≡ self.now }
        ensures short { length result.now ≤ 128 }
    {
        &self.letters[..self.len]
    }

    // How many letters it has.
    pub fn len(&self) -> usize
        ensures { (result ≡ length self.now) × (result ≤ 128) }
    {
        self.as_slice().len()
    }

    // More letters go behind it.
    pub fn extend_from_slice(&mut self, more: &[u8])
        requires { length self.old + length more.now ≤ 128 }
        ensures { self.new ≡ self.old ++ more.now }
    {
        put(&mut self.letters, self.len, more);
        self.len += more.len();
    }

    // Three pieces, one behind the other.
    pub fn join(a: &[u8], b: &[u8], c: &[u8]) -> WordBuf
        requires { length a.now + (length b.now + length c.now) ≤ 128 }
        ensures { result ≡ a.now ++ (b.now ++ c.now) }
    {
        let mut letters = [0; WORD_LIMIT];
        let len = join(a, b, c, &mut letters);
        WordBuf { letters, len }
    }

    // A copy of a word.
    pub fn from_word(word: &[u8]) -> WordBuf
        requires { length word.now ≤ 128 }
        ensures { result ≡ word.now }
    {
        let mut letters = [0; WORD_LIMIT];
        put(&mut letters, 0, word);
        let len = word.len();
        WordBuf { letters, len }
    }

    // A word with the n letters from the place p on replaced by right.
    pub fn replaced(word: &[u8], p: usize, n: usize, right: &[u8]) -> WordBuf
        requires { (p + n ≤ length word.now) × (length word.now + length right.now ≤ 128 + n) }
        ensures { result ≡ replace_at word.now p n right.now }
    {
        let mut letters = [0; WORD_LIMIT];
        let len = replace_into(word, p, n, right, &mut letters);
        WordBuf { letters, len }
    }

    // The first reduct of an overlap, and the second.
    pub fn first_reduct(left: &[u8], right: &[u8], laid: &[u8], k: usize) -> WordBuf
        requires { length laid.now + length right.now ≤ 128 }
        ensures { result ≡ first_reduct k left.now right.now laid.now }
    {
        let mut letters = [0; WORD_LIMIT];
        let len = first_reduct(left, right, laid, k, &mut letters);
        WordBuf { letters, len }
    }

    pub fn second_reduct(left: &[u8], laid: &[u8], other: &[u8], k: usize) -> WordBuf
        requires { length left.now + (min (k - length left.now) (length laid.now) + length other.now) ≤ 128 }
        ensures { result ≡ second_reduct k left.now laid.now other.now }
    {
        let mut letters = [0; WORD_LIMIT];
        let len = second_reduct(left, laid, other, k, &mut letters);
        WordBuf { letters, len }
    }

    // The n letters from the place p on are replaced by right: written over by as many, and else a new word is made.
    pub fn replace(&mut self, p: usize, n: usize, right: &[u8])
        requires { (p + n ≤ length self.old) × (length self.old + length right.now ≤ 128 + n) }
        ensures { self.new ≡ replace_at self.old p n right.now }
    {
        if right.len() == n {
            put(&mut self.letters, p, right);
        } else {
            *self = WordBuf::replaced(self.as_slice(), p, n, right);
        }
    }
}
