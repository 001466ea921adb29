// Why a call is refused. Specification, "Refusal numbers".
ghost use Rattle.std.specs.Prelude.{◌≡◌};
ghost use Rattle.words.specs.Answer.{number_of, place_of};

use std::error::Error;
use std::fmt;

// A refusal, with the line's or the equation's number where the specification gives a place.
#[derive(Clone, Copy, Debug, PartialEq, Eq)]
pub enum Refusal {
    // A file breaks the layout or is of another kind than the call reads.
    File,
    // Table and sheet disagree in the header.
    Headers,
    // An output or the work buffer is below its size.
    Room,
    // A word is too long or has a letter that is not below n.
    Word,
    // The allowance is used up.
    Spent,
    // The new word would pass 128 letters.
    Long,
    // A side of a new line is too long.
    LongSide,
    // A line too many.
    ManyLines,
    // A lineage has a step too many.
    ManySteps,
    // A waiting entry too many.
    ManyWaiting,
    // Neither of two words is greater.
    Unordered,
    // A line's chain does not lead from its left to its right word.
    Chain(u16),
    // A line's left word is not greater than its right word.
    Direction(u16),
    // A standing left word holds another.
    Reduced(u16),
    // The sides of an equation have two normal words.
    Equation(u16),
    // The reducts of a critical pair have two normal words.
    Pair(u16),
    // A price word has another fare than an earlier one for the same normal word.
    TwoFares(u16),
}

impl Refusal {
    // Its number.
    pub fn number(self) -> u8
        ensures { result ≡ number_of self }
    {
        match self {
            Refusal::File => 1,
            Refusal::Headers => 2,
            Refusal::Room => 3,
            Refusal::Word => 4,
            Refusal::Spent => 5,
            Refusal::Long => 6,
            Refusal::LongSide => 7,
            Refusal::ManyLines => 8,
            Refusal::ManySteps => 9,
            Refusal::ManyWaiting => 10,
            Refusal::Unordered => 11,
            Refusal::Chain(_) => 12,
            Refusal::Direction(_) => 13,
            Refusal::Reduced(_) => 14,
            Refusal::Equation(_) => 15,
            Refusal::Pair(_) => 16,
            Refusal::TwoFares(_) => 17,
        }
    }

    // Its place, 0 where none is given.
    pub fn place(self) -> u16
        ensures { result ≡ place_of self }
    {
        match self {
            Refusal::Chain(p)
            | Refusal::Direction(p)
            | Refusal::Reduced(p)
            | Refusal::Equation(p)
            | Refusal::Pair(p)
            | Refusal::TwoFares(p) => p,
            _ => 0,
        }
    }
}

impl fmt::Display for Refusal {
    fn fmt<W: fmt::Write>(&self, f: &mut fmt::Formatter<W>) -> fmt::Result {
        write!(f, "refused {} at {}", self.number(), self.place())
    }
}

impl Error for Refusal {}
