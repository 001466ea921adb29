// A table's standing lines at work on words: the replacement due, the normal word, two normal words compared, also those of the reducts of two
// lines. The lines are lent, whether they lie in a file or in completion's work buffer.

#![tactic(auto)]

mod by_lines; // the replacement due, line by line
mod pairs; // the reducts of two lines compared
mod same_fare; // two words, each reduced, compared
mod searching; // the replacement due, place by place
mod normal_words; // the normal word, turn by turn

pub use by_lines::search_by_lines;
pub use normal_words::{normal_of, reduce};
pub use pairs::pair_same;
use rewriting::word_buf::WordBuf;
pub use same_fare::same_normal;
pub use searching::search;

// The allowance of each normal word inside a completion and the check.
pub const OWN_ALLOWANCE: u16 = 4096;

// A normal word, and the number of replacements that led to it.
#[derive(Drop)]
pub struct Normal {
    pub word: WordBuf,
    pub count: u16,
}
