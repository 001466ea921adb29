// Where a word stands, and which words agree: letters are compared in one place.
ghost use Rattle.std.specs.Prelude.{◌≡◌, ◌+◌, ◌≤◌, length, drop};
ghost use Rattle.rewriting.specs.Standing.{begins, stands_at, stands_in, first_from};
ghost use Rattle.rewriting.specs.Steps.{same_word};
ghost use Rattle.rewriting.specs.Pairs.{agree, is_pair};

// From the place p on the word begins with left: letter by letter, as most words are told apart by their first.
fn begins_at(left: &[u8], word: &[u8], p: usize) -> bool
    requires { p + length left.now ≤ length word.now }
    ensures { result ≡ begins left.now (drop p word.now) }
{
    for i in 0..left.len() {
        if left[i] != word[p + i] {
            return false;
        }
    }
    true
}

// The most letters that the library compares with no branch for each.
const GROUP: usize = 8;

// The same where one word is tried at place after place of another, and nothing foresees where the letters differ: a short one in one go.
fn starts_at(left: &[u8], word: &[u8], p: usize) -> bool
    requires { p + length left.now ≤ length word.now }
    ensures { result ≡ begins left.now (drop p word.now) }
{
    if left.len() <= GROUP {
        word[p..].starts_with(left)
    } else {
        begins_at(left, word, p)
    }
}

// left stands in the word at the place p. Most words fail by their first letter, which is tried before the lengths:
// docs/DECISIONS.md has what was measured.
pub fn stands_at(left: &[u8], word: &[u8], p: usize) -> bool
    ensures { result ≡ stands_at left.now word.now p }
{
    if left.is_empty() {
        return p <= word.len();
    }
    if word.len() <= p {
        return false;
    }
    if left[0] != word[p] {
        return false;
    }
    if word.len() - p < left.len() {
        return false;
    }
    begins_at(left, word, p)
}

// left stands in the word somewhere.
pub fn stands_in(left: &[u8], word: &[u8]) -> bool
    ensures { result ≡ stands_in left.now word.now }
{
    (0..word.len() + 1).any(|p| stands_at(left, word, p))
}

// The earliest of the first room places of the word, at each of which left has room, where left stands; room where it stands at none.
fn first_room(left: &[u8], word: &[u8], room: usize) -> usize
    requires { room + length left.now ≤ length word.now + 1 }
    ensures { result ≡ first_from left.now word.now 0 room }
{
    (0..room)
        .find(|p| starts_at(left, word, *p))
        .unwrap_or(room)
}

// The same before the place end, where left has room at fewer places.
fn first_short(left: &[u8], word: &[u8], room: usize, end: usize) -> usize
    requires { (room + length left.now ≡ length word.now + 1) × (room ≤ end) }
    ensures { result ≡ first_from left.now word.now 0 end }
{
    let p = first_room(left, word, room);
    if p < room { p } else { end }
}

// The earliest place before end where left stands in the word; end where it stands at none.
pub fn first_before(left: &[u8], word: &[u8], end: usize) -> usize
    ensures { result ≡ first_from left.now word.now 0 end }
{
    if word.len() < left.len() {
        return end;
    }
    let room = word.len() - left.len() + 1;
    if room < end {
        first_short(left, word, room, end)
    } else {
        first_room(left, word, end)
    }
}

// Two words are the same: slices' own test, by which callers are told what the definition `same_word` says.
pub fn same_word(u: &[u8], v: &[u8]) -> bool
    ensures { result ≡ same_word u.now v.now }
{
    u == v
}

// The word laid at k agrees with left wherever both have a letter.
pub fn agree_at(left: &[u8], k: usize, laid: &[u8]) -> bool
    requires { k ≤ length left.now }
    ensures { result ≡ agree (drop k left.now) laid.now }
{
    if laid.len() <= left.len() - k {
        begins_at(laid, left, k)
    } else {
        begins_at(&left[k..], laid, 0)
    }
}

// The lines n and m, with these left words, make a critical pair at the place k.
#[tactic(auto, unfolding(crate::specs::Pairs::is_pair, crate::specs::Pairs::place_counts))]
pub fn is_pair(n: usize, m: usize, k: usize, left: &[u8], laid: &[u8]) -> bool
    ensures { result ≡ is_pair n m k left.now laid.now }
{
    k < left.len() && agree_at(left, k, laid) && (1 <= k || n < m)
}
