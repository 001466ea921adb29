// The public calls for other languages: each takes every input and answers by one struct of numbers.

#![tactic(auto)]

mod answers; // the answers of the calls, as the struct

ghost use Rattle.std.specs.Prelude.{◌≡◌, length};
ghost use Rattle.words.specs.Refusal.{answered, on_answer};
ghost use Rattle.words.specs.Comparing.{compare_result};
ghost use Rattle.words.specs.Output.{result_output};
ghost use Rattle.queries.specs.Queries.{one_result, normal_result, same_result, counted_output};
ghost use Rattle.queries.specs.Pair.{pair_result, pair_output};
ghost use Rattle.queries.specs.Calls.{given_with, told};
ghost use Rattle.lent_rules.specs.Lent.{search_result};
ghost use Rattle.checking.specs.Check.{check_result};
ghost use Rattle.listing.specs.Calls.{list_result};
ghost use Rattle.completing.specs.Calls.{complete_result, complete_work};
ghost use Rattle.grettalune.specs.Answers.{answer_by, ordering_values, word_values, pair_values, fare_values, due_values, length_values, accepted_values};

use answers::{comparison, fare, length, pair_found, replacement, verdict, word_reached};
use lent_rules::RuleRecord;
use words::Order;

// The answer of every call, as C reads it: the refusal's number and place, or 0, 0 and the answer's values.
#[repr(C)]
#[derive(Clone, Copy, Debug, PartialEq, Eq)]
pub struct Answer {
    pub refusal: u32,
    pub place: u32,
    pub a: u32,
    pub b: u32,
    pub c: u32,
    pub d: u32,
}

// Compares two words: a is 0 less, 1 equal, 2 greater.
pub fn grettalune_compare(order: u16, letters: u16, u: &[u8], v: &[u8]) -> Answer
    ensures { result ≡ answer_by ordering_values (compare_result (record { code = order }) letters u.now v.now) }
{
    comparison(words::compare(Order { code: order }, letters, u, v))
}

// The search over lent rules: a is 1 and b, c are the place and the line number of the replacement due; or all are 0.
pub fn grettalune_search(rules: &[RuleRecord], area: &[u8], word: &[u8]) -> Answer
    ensures { result ≡ answer_by due_values (search_result rules.now area.now word.now) }
{
    replacement(lent_rules::search(rules, area, word))
}

// One replacement: a is the length of the word written to out, b its count.
pub fn grettalune_one(table: &[u8], word: &[u8], out: &mut [u8]) -> Answer
    ensures { (result ≡ answer_by word_values (given_with (one_result table.now word.now (length out.old))))
        × (out.new ≡ counted_output (one_result table.now word.now (length out.old)) out.old) }
{
    word_reached(queries::one(table, word, out))
}

// The normal word: a is the length of the word written to out, b its count.
pub fn grettalune_normal(table: &[u8], word: &[u8], allowance: u16, out: &mut [u8]) -> Answer
    ensures { (result ≡ answer_by word_values (given_with (normal_result table.now word.now allowance (length out.old))))
        × (out.new ≡ counted_output (normal_result table.now word.now allowance (length out.old)) out.old) }
{
    word_reached(queries::normal(table, word, allowance, out))
}

// A critical pair: a, b, c are the lengths of peak and reducts, written to 0, 64 and 128 of out; all 0 where there is none.
pub fn grettalune_pair(table: &[u8], n: u32, m: u32, place: u32, out: &mut [u8]) -> Answer
    ensures { (result ≡ answer_by pair_values (on_answer (pair_result table.now n m place (length out.old)) (λ f. answered (told f))))
        × (out.new ≡ pair_output (pair_result table.now n m place (length out.old)) out.old) }
{
    pair_found(queries::pair(table, n, m, place, out))
}

// Completion of a sheet: a is the length of the table written to out. The work buffer is left with zeros, after refusal 3 as it was.
pub fn grettalune_complete(sheet: &[u8], out: &mut [u8], work: &mut [u8]) -> Answer
    ensures { (result ≡ answer_by length_values (on_answer (complete_result sheet.now (length out.old) (length work.old))
        (λ bytes. answered (length bytes))))
        × (out.new ≡ result_output (complete_result sheet.now (length out.old) (length work.old)) out.old)
        × (work.new ≡ complete_work (complete_result sheet.now (length out.old) (length work.old)) work.old) }
{
    length(completing::complete(sheet, out, work))
}

// The check of a table against a sheet: all values are 0 where it is accepted.
pub fn grettalune_check(sheet: &[u8], table: &[u8]) -> Answer
    ensures { result ≡ answer_by accepted_values (check_result sheet.now table.now) }
{
    verdict(checking::check(sheet, table))
}

// Yes or no to the same fare: a is 1 or 0.
pub fn grettalune_same(table: &[u8], u: &[u8], v: &[u8], allowance: u16) -> Answer
    ensures { result ≡ answer_by fare_values (same_result table.now u.now v.now allowance) }
{
    fare(queries::same(table, u, v, allowance))
}

// The listing of a table: a is the length of the text written to out.
pub fn grettalune_list(table: &[u8], out: &mut [u8]) -> Answer
    ensures { (result ≡ answer_by length_values (on_answer (list_result table.now (length out.old)) (λ text. answered (length text))))
        × (out.new ≡ result_output (list_result table.now (length out.old)) out.old) }
{
    length(listing::list(table, out))
}
