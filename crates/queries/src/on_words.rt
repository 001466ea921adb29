// The public calls on words: one replacement, the normal word, yes or no to the same fare.
ghost use Rattle.std.specs.Prelude.{◌≡◌, ◌*◌, ◌≤◌, Ok, IfOk, length};
ghost use Rattle.words.specs.Answer.{result_as};
ghost use Rattle.words.specs.Refusal.{answered};
ghost use Rattle.rewriting.specs.Search.{search as searchOf};
ghost use Rattle.layout.specs.Lines.{rules};
ghost use Rattle.reducing.specs.Answers.{counted_as, fares_as};
ghost use Rattle.queries.specs.Queries.{one_by, one_result, normal_result, same_result};
ghost use Rattle.queries.specs.Calls.{WordCalled, query_header};

use crate::Reached;
use buffers::put;
use layout::judged::Table;
use layout::lent::Lines;
use reducing::{Normal, normal_of, same_normal, search};
use rewriting::word_buf::WordBuf;
use words::{Refusal, query_word};

// The table, where the output has its size, the table fits and the word may be asked about.
#[tactic(auto, unfolding(crate::specs::Calls::query_header))]
fn query_table<'a>(table: &'a [u8], word: &[u8], room: usize) -> Result<Table<'a>, Refusal>
    ensures asked { result_as (λ t. t.header) result ≡ query_header table.now word.now room }
    ensures bytes { IfOk result (λ t. t.bytes.now ≡ table.now) }
    ensures fit { IfOk result (λ t. (128 ≤ room) × (length word.now ≤ 64)) }
{
    if room < 128 {
        return Err(Refusal::Room);
    }
    let table = Table::read(table)?;
    if !query_word(word, table.header.letters) {
        return Err(Refusal::Word);
    }
    Ok(table)
}

// One replacement in a word, and the word itself where none is due.
fn one_by(lines: Lines, word: &[u8]) -> Normal
    requires { length word.now ≤ 64 }
    ensures { counted_as (Ok result) ≡ answered (one_by (searchOf (rules lines.entry) word.now) word.now) }
{
    match search(lines, word) {
        Some(found) => {
            let left = lines.left(found.line);
            let right = lines.right(found.line);
            Normal {
                word: WordBuf::replaced(word, found.place, left.len(), right),
                count: 1,
            }
        }
        None => Normal {
            word: WordBuf::from_word(word),
            count: 0,
        },
    }
}

// A word with its count goes to the start of the output; a refusal writes nothing.
fn show_counted(counted: Result<Normal, Refusal>, out: &mut [u8]) -> Result<Reached, Refusal>
    requires { 128 ≤ length out.old }
    ensures { WordCalled (counted_as counted) out.old out.new result }
{
    let counted = counted?;
    put(out, 0, counted.word.as_slice());
    Ok(Reached {
        length: counted.word.len(),
        count: counted.count,
    })
}

// The public call: one replacement in a word.
pub fn one(table: &[u8], word: &[u8], out: &mut [u8]) -> Result<Reached, Refusal>
    ensures { WordCalled (one_result table.now word.now (length out.old)) out.old out.new result }
{
    let table = query_table(table, word, out.len())?;
    show_counted(Ok(one_by(table.lines(), word)), out)
}

// The public call: the normal word of a word under an allowance.
pub fn normal(table: &[u8], word: &[u8], allowance: u16, out: &mut [u8]) -> Result<Reached, Refusal>
    ensures { WordCalled (normal_result table.now word.now allowance (length out.old))
        out.old out.new result }
{
    let table = query_table(table, word, out.len())?;
    show_counted(normal_of(table.lines(), word, allowance), out)
}

// The public call: yes or no to two words being the same fare.
pub fn same(table: &[u8], u: &[u8], v: &[u8], allowance: u16) -> Result<bool, Refusal>
    ensures { fares_as result ≡ same_result table.now u.now v.now allowance }
{
    let table = Table::read(table)?;
    let letters = table.header.letters;
    if !query_word(u, letters) || !query_word(v, letters) {
        return Err(Refusal::Word);
    }
    same_normal(table.lines(), u, v, allowance)
}
