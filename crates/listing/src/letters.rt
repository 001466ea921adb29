// Words as text.
ghost use Rattle.std.specs.Prelude.{◌≡◌, ◌++◌, ◌+◌, ◌≤◌, length};
ghost use Rattle.rewriting.specs.Sheet.{side_limit};
ghost use Rattle.buffers.specs.Appended.{Appended};
ghost use Rattle.listing.specs.Text.{letter_byte, letter_bytes, word_text};

use buffers::put_bytes;

// A letter's byte: a to z, then A to F.
fn letter(a: u8) -> u8
    ensures { result ≡ letter_byte a }
{
    match a {
        0..=25 => b'a' + a,
        26..=31 => b'A' + (a - 26),
        _ => b'?',
    }
}

// The letters of a word; where they end.
fn put_letters(out: &mut [u8], at: usize, w: &[u8]) -> usize
    requires { at + length w.now ≤ length out.old }
    ensures { Appended out.old out.new at result (length w.now) (letter_bytes w.now) }
{
    for (i, a) in w.iter().enumerate() {
        out[at + i] = letter(*a);
    }
    at + w.len()
}

// A word, the empty one as a hyphen; where it ends.
fn put_word(out: &mut [u8], at: usize, w: &[u8]) -> usize
    requires { (at + side_limit ≤ length out.old) × (length w.now ≤ side_limit) }
    ensures { Appended out.old out.new at result side_limit (word_text w.now) }
{
    if w.is_empty() {
        put_bytes(out, at, b"-")
    } else {
        put_letters(out, at, w)
    }
}

// A text with a word behind it; where it ends.
pub fn put_with_word(out: &mut [u8], at: usize, text: &[u8], w: &[u8]) -> usize
    requires { (at + (length text.now + side_limit) ≤ length out.old) × (length w.now ≤ side_limit) }
    ensures { Appended out.old out.new at result (length text.now + side_limit) (text.now ++ word_text w.now) }
{
    let middle = put_bytes(out, at, text);
    put_word(out, middle, w)
}
