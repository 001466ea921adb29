// The answers of the calls, read as the struct of numbers.
ghost use Rattle.std.specs.Prelude.{◌≡◌, IfOk};
ghost use Rattle.words.specs.Answer.{number_of, place_of, ordering_of, result_as, compared_as};
ghost use Rattle.reducing.specs.Answers.{fares_as};
ghost use Rattle.queries.specs.Calls.{reduced_as, paired_as};
ghost use Rattle.chains.specs.Answers.{verdict_as};
ghost use Rattle.lent_rules.specs.Scan.{FoundSmall};
ghost use Rattle.grettalune.specs.Answers.{giving, refusing, answer_by, ordering_values, word_values, pair_values, fare_values, found_values, length_values, accepted_values, WordShort, PairShort};

use crate::Answer;
use queries::{Lengths, Reached};
use rewriting::Found;
use std::cmp::Ordering;
use words::Refusal;

// An answer with three values.
fn give(a: u32, b: u32, c: u32) -> Answer
    ensures { result ≡ giving a b c }
{
    Answer {
        refusal: 0,
        place: 0,
        a,
        b,
        c,
        d: 0,
    }
}

// A refusal by its number and place.
fn refuse(f: Refusal) -> Answer
    ensures { result ≡ refusing (number_of f) (place_of f) }
{
    Answer {
        refusal: u32::from(f.number()),
        place: u32::from(f.place()),
        a: 0,
        b: 0,
        c: 0,
        d: 0,
    }
}

// The answer of comparing.
pub fn comparison(x: Result<Ordering, Refusal>) -> Answer
    ensures { result ≡ answer_by ordering_values (compared_as x) }
{
    match x {
        Ok(Ordering::Less) => give(0, 0, 0),
        Ok(Ordering::Equal) => give(1, 0, 0),
        Ok(Ordering::Greater) => give(2, 0, 0),
        Err(f) => refuse(f),
    }
}

// The answer of one replacement and of the normal word.
pub fn word_reached(x: Result<Reached, Refusal>) -> Answer
    requires { WordShort (reduced_as x) }
    ensures { result ≡ answer_by word_values (reduced_as x) }
{
    match x {
        Ok(w) => give(w.length as u32, u32::from(w.count), 0),
        Err(f) => refuse(f),
    }
}

// The answer of the pair call.
pub fn pair_found(x: Result<Option<Lengths>, Refusal>) -> Answer
    requires { PairShort (paired_as x) }
    ensures { result ≡ answer_by pair_values (paired_as x) }
{
    match x {
        Ok(None) => give(0, 0, 0),
        Ok(Some(l)) => give(l.peak as u32, l.first as u32, l.second as u32),
        Err(f) => refuse(f),
    }
}

// The answer of yes or no to the same fare.
pub fn fare(x: Result<bool, Refusal>) -> Answer
    ensures { result ≡ answer_by fare_values (fares_as x) }
{
    match x {
        Ok(same) => give(u32::from(same), 0, 0),
        Err(f) => refuse(f),
    }
}

// The answer of the check.
pub fn verdict(x: Result<(), Refusal>) -> Answer
    ensures { result ≡ answer_by accepted_values (verdict_as x) }
{
    match x {
        Ok(()) => give(0, 0, 0),
        Err(f) => refuse(f),
    }
}

// The answer of completion and of the listing: how long what was written is.
pub fn length(x: Result<u32, Refusal>) -> Answer
    ensures { result ≡ answer_by length_values (result_as (λ k. k) x) }
{
    match x {
        Ok(k) => give(k, 0, 0),
        Err(f) => refuse(f),
    }
}

// The answer of the search.
pub fn replacement(x: Result<Option<Found>, Refusal>) -> Answer
    requires { IfOk x (λ f. FoundSmall f) }
    ensures { result ≡ answer_by found_values (result_as (λ f. f) x) }
{
    match x {
        Ok(None) => give(0, 0, 0),
        Ok(Some(f)) => give(1, f.place as u32, f.line as u32),
        Err(f) => refuse(f),
    }
}
