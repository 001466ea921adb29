// Sheets: judged. Tables have functions of their own: a table has steps besides, and each is promised by its own definitions.
ghost use Rattle.std.specs.Prelude.{◌≡◌, ◌&&◌, ◌+◌, ◌*◌, ◌<◌, ◌≤◌, length};
ghost use Rattle.words.specs.Word.{letters_below};
ghost use Rattle.layout.specs.Header.{sheet_width, sheet_kind, header_of, records_of, words_of};
ghost use Rattle.layout.specs.Judged.{SheetHead};
ghost use Rattle.layout.specs.Sheets.{equations_fit, sheet_fits};

use crate::areas::{records_of, words_of};
use crate::headers::{header_fits, header_of};
use crate::records::{pair_length, sides_fit};
use crate::{HEADER_SIZE, Header, SHEET, SHEET_WIDTH};
use words::letters_below;

// The n records fit the words, one behind the other, and no letter is left.
#[tactic(auto, using(crate::proofs::SheetLaws::judging))]
pub fn equations_fit(recs: &[u8], words: &[u8], n: usize) -> bool
    requires { (length recs.now ≡ sheet_width * n) × (n ≤ sheet_kind.pairs) }
    ensures { result ≡ equations_fit 0 n recs.now words.now }
{
    let mut o = 0;
    for j in 0..n {
        if !sides_fit(recs, SHEET_WIDTH * j, words, o) {
            return false;
        }
        o += pair_length(recs, SHEET_WIDTH * j);
    }
    o == words.len()
}

// The areas of a sheet with a good header fit.
fn sheet_areas_fit(b: &[u8], h: Header) -> bool
    requires { SheetHead h (length b.now) × (h ≡ header_of b.now) }
    ensures { result ≡ equations_fit 0 h.pairs (records_of sheet_kind b.now) (words_of sheet_kind b.now)
        && letters_below h.letters (words_of sheet_kind b.now) }
{
    let words = words_of(b, SHEET, h);
    equations_fit(records_of(b, SHEET, h), words, h.pairs) && letters_below(words, h.letters)
}

// The slice is a sheet.
#[tactic(auto, using(crate::proofs::HeaderLaws::header_short), unfolding(crate::specs::Sheets::sheet_fits))]
pub fn sheet_fits(b: &[u8]) -> bool
    ensures { result ≡ sheet_fits b.now }
{
    if b.len() < HEADER_SIZE {
        return false;
    }
    let h = header_of(b);
    header_fits(b, SHEET, h) && sheet_areas_fit(b, h)
}
