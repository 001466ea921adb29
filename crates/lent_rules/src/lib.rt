// The search over lent rule records, record by record: what is known after each, on bytes and numbers.
#![tactic(auto)]

ghost use Rattle.std.specs.Prelude.{◌≡◌, [], ◌∷◌, IfSome, IfOk, None, Some};
ghost use Rattle.words.specs.Refusal.{answered, on_answer};
ghost use Rattle.words.specs.Answer.{result_as};
ghost use Rattle.rewriting.specs.Found.{found_of};
ghost use Rattle.lent_rules.specs.Lent.{record_fits, search_result};
ghost use Rattle.lent_rules.specs.Scan.{found_with, FoundSmall, record_goes_on, good_scan, scan_step, scan_from};

use rewriting::finding::or_earlier;
use rewriting::word_buf::WORD_LIMIT;
use rewriting::{Found, SIDE_LIMIT};
use words::Refusal;

// A standing rule as it is lent for the search: its left letters start at offset in the words area, its right letters follow.
// Its fields are C's.
#[repr(C)]
#[derive(Clone, Copy, Debug, PartialEq, Eq)]
pub struct RuleRecord {
    pub offset: u16,
    pub left: u8,
    pub right: u8,
    pub line: u16,
}

// What is known after some records that fit and whose numbers rise: the least number that may follow, the replacement due so far.
#[derive(Clone, Copy, Debug, PartialEq, Eq)]
pub struct Scan {
    pub least: u32,
    pub found: Option<Found>,
}

// What is known before the first record.
pub fn start() -> Scan
    ensures { result ≡ good_scan 0 None }
{
    Scan {
        least: 0,
        found: None,
    }
}

// What is found with one left word more; a word that will be refused is not searched.
#[tactic(auto, unfolding(crate::specs::Scan::found_with))]
fn found_with(found: Option<Found>, line: usize, left: &[u8], word: &[u8]) -> Option<Found>
    ensures { result ≡ found_with found line left.now word.now }
{
    if word.len() <= WORD_LIMIT {
        or_earlier(found, line, left, word)
    } else {
        found
    }
}

// No side over 32 letters, and both sides inside the area.
#[tactic(auto, unfolding(crate::specs::Lent::record_fits))]
fn record_fits(r: RuleRecord, area: &[u8]) -> bool
    ensures { result ≡ record_fits area.now r }
{
    let left = usize::from(r.left);
    let right = usize::from(r.right);
    left <= SIDE_LIMIT
        && right <= SIDE_LIMIT
        && usize::from(r.offset) + (left + right) <= area.len()
}

// The next record fits, and its line number rises.
#[tactic(auto, unfolding(crate::specs::Scan::record_goes_on))]
fn goes_on(s: Scan, r: RuleRecord, area: &[u8]) -> bool
    ensures { result ≡ record_goes_on area.now s r }
{
    record_fits(r, area) && s.least <= u32::from(r.line)
}

// What is known after one record more; nothing where it does not fit or its number does not rise.
fn with_record(s: Scan, r: RuleRecord, area: &[u8], word: &[u8]) -> Option<Scan>
    requires { FoundSmall s.found }
    ensures { (result ≡ scan_step area.now word.now s r) × IfSome result (λ t. FoundSmall t.found) }
{
    if !goes_on(s, r, area) {
        return None;
    }
    let start = usize::from(r.offset);
    let end = start + usize::from(r.left);
    let found = found_with(s.found, usize::from(r.line), &area[start..end], word);
    Some(Scan {
        least: u32::from(r.line) + 1,
        found,
    })
}

// The same from what is known so far: nothing once a record did not fit or its number did not rise, whatever follows.
#[tactic(auto, unfolding(crate::specs::Scan::scan_from))]
pub fn step(s: Option<Scan>, r: RuleRecord, area: &[u8], word: &[u8]) -> Option<Scan>
    requires { IfSome s (λ t. FoundSmall t.found) }
    ensures { (result ≡ scan_from area.now word.now s (r ∷ [])) × IfSome result (λ t. FoundSmall t.found) }
{
    with_record(s?, r, area, word)
}

// What is known after all records.
fn scan_all(rules: &[RuleRecord], area: &[u8], word: &[u8]) -> Option<Scan>
    ensures { (result ≡ scan_from area.now word.now (Some (good_scan 0 None)) rules.now) × IfSome result (λ t. FoundSmall t.found) }
{
    let mut s = start();
    for r in rules {
        s = step(Some(s), *r, area, word)?;
    }
    Some(s)
}

// The replacement due by lent rules, by which the call for other languages answers.
pub fn search(rules: &[RuleRecord], area: &[u8], word: &[u8]) -> Result<Option<Found>, Refusal>
    ensures told { result_as (λ f. f) result ≡ on_answer (search_result rules.now area.now word.now) (λ d. answered (found_of d)) }
    ensures small { IfOk result (λ f. FoundSmall f) }
{
    let Some(known) = scan_all(rules, area, word) else {
        return Err(Refusal::File);
    };
    if WORD_LIMIT < word.len() {
        return Err(Refusal::Word);
    }
    Ok(known.found)
}
