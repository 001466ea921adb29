// Conditions 5 and 6: one normal word for both sides of each equation, and for the reducts of each critical pair.
ghost use Rattle.std.specs.Prelude.{◌≡◌, [], ◌*◌, ◌<◌, ◌≤◌};
ghost use Rattle.words.specs.Refusal.{on_answer};
ghost use Rattle.words.specs.Answer.{number_of, place_of};
ghost use Rattle.layout.specs.Slices.{equation_left, equation_right};
ghost use Rattle.layout.specs.Lines.{equations as equationsOf, lines as linesOf, rules};
ghost use Rattle.reducing.specs.Answers.{fares_as};
ghost use Rattle.chains.specs.Verdict.{unless};
ghost use Rattle.checking.specs.OneNormal.{same_or, equations_verdict, pair_verdict, places_verdict, two_lines, others_verdict, of_line, pairs_verdict};
ghost use Rattle.chains.specs.Answers.{verdict_as};

use layout::lent::{Equations, Lines};
use reducing::{OWN_ALLOWANCE, pair_same, same_normal};
use rewriting::standing::is_pair;
use words::Refusal;

// Two normal words compared, as a verdict: where they differ, it is this refusal.
fn verdict_of(same: Result<bool, Refusal>, refusal: Refusal) -> Result<(), Refusal>
    ensures { verdict_as result ≡ on_answer (fares_as same) (λ t. unless t (number_of refusal) (place_of refusal)) }
{
    if same? { Ok(()) } else { Err(refusal) }
}

// Both sides of equation i have one normal word.
fn equation_same(equations: Equations, lines: Lines, i: usize) -> Result<(), Refusal>
    requires { i < equations.n }
    ensures { verdict_as result ≡ same_or (rules lines.entry) 15 i
        (equation_left equations.entry.recs.now equations.entry.words.now i) (equation_right equations.entry.recs.now equations.entry.words.now i) }
{
    let left = equations.left(i);
    let right = equations.right(i);
    verdict_of(
        same_normal(lines, left, right, OWN_ALLOWANCE),
        Refusal::Equation(i as u16),
    )
}

// Condition 5: the first equation whose sides have two normal words is refusal 15.
pub fn equations(equations: Equations, lines: Lines) -> Result<(), Refusal>
    ensures { verdict_as result ≡ equations_verdict (rules lines.entry) (equationsOf equations.entry) }
{
    for i in 0..equations.n {
        equation_same(equations, lines, i)?;
    }
    Ok(())
}

// The critical pair of the lines i and m at the place k, where there is one, has one normal word.
fn pair_at(lines: Lines, i: usize, m: usize, k: usize) -> Result<(), Refusal>
    requires { (i < lines.n) × (m < lines.n) }
    ensures { verdict_as result ≡ pair_verdict (rules lines.entry) (linesOf lines.entry) i m k }
{
    let left = lines.left(i);
    let laid = lines.left(m);
    if !is_pair(i, m, k, left, laid) {
        return Ok(());
    }
    verdict_of(
        pair_same(lines, i, m, k, OWN_ALLOWANCE),
        Refusal::Pair(i as u16),
    )
}

// Every place of line i's left word, with line m.
fn places(lines: Lines, i: usize, m: usize) -> Result<(), Refusal>
    requires { (i < lines.n) × (m < lines.n) }
    ensures { verdict_as result ≡ places_verdict (rules lines.entry) (linesOf lines.entry) i m }
{
    for k in 0..lines.left(i).len() {
        pair_at(lines, i, m, k)?;
    }
    Ok(())
}

// Line i with line m, if m stands.
fn two_lines(lines: Lines, i: usize, m: usize) -> Result<(), Refusal>
    requires { (i < lines.n) × (m < lines.n) }
    ensures { verdict_as result ≡ two_lines (rules lines.entry) (linesOf lines.entry) i m }
{
    if lines.stands(m) {
        places(lines, i, m)
    } else {
        Ok(())
    }
}

// Line i with every standing line.
fn others(lines: Lines, i: usize) -> Result<(), Refusal>
    requires { i < lines.n }
    ensures { verdict_as result ≡ others_verdict (rules lines.entry) (linesOf lines.entry) i }
{
    for m in 0..lines.n {
        two_lines(lines, i, m)?;
    }
    Ok(())
}

// The pairs of line i, if it stands.
fn of_line(lines: Lines, i: usize) -> Result<(), Refusal>
    requires { i < lines.n }
    ensures { verdict_as result ≡ of_line (rules lines.entry) (linesOf lines.entry) i }
{
    if lines.stands(i) {
        others(lines, i)
    } else {
        Ok(())
    }
}

// Condition 6: the first critical pair with two normal words is refusal 16.
pub fn pairs(lines: Lines) -> Result<(), Refusal>
    ensures { verdict_as result ≡ pairs_verdict (rules lines.entry) (linesOf lines.entry) }
{
    for i in 0..lines.n {
        of_line(lines, i)?;
    }
    Ok(())
}
