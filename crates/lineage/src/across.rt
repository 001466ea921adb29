// The middle of a lineage: from one of an entry's words to the other.
ghost use Rattle.std.specs.Prelude.{◌≡◌, true, false, [], ◌∷◌, ◌+◌, ◌<◌, ◌≤◌, length};
ghost use Rattle.workspace.specs.Areas.{work_room, most_steps};
ghost use Rattle.workspace.specs.Work.{noted};
ghost use Rattle.workspace.specs.Desk.{Notes};
ghost use Rattle.workspace.specs.declared.Entry.TheVariants.{OfOverlap};
ghost use Rattle.lineage.specs.Lineage.{across};
ghost use Rattle.lineage.specs.Noting.{middle};

use workspace::{Desk, Entry, Overlap};

// Over a peak: a step back by one line at its place, then a step forward by another at its own.
fn over_peak(desk: &mut Desk, at: usize, up: usize, p: u8, down: usize, q: u8)
    requires { (at + 2 ≤ most_steps) × (up < 65536) × (down < 65536) }
    ensures { Notes desk.old at
        (record { reference = up; back = true; place = p } ∷ record { reference = down; back = false; place = q } ∷ []) desk.new }
{
    desk.note_step(at, up, true, p);
    desk.note_step(at + 1, down, false, q);
}

// The way across an overlap, one way or the other.
fn note_overlap(desk: &mut Desk, at: usize, cited: usize, o: Overlap, back: bool)
    requires { (at + 2 ≤ most_steps) × (cited ≤ 64) }
    ensures { Notes desk.old at (middle back cited (OfOverlap o)) desk.new }
{
    let n = cited + usize::from(o.n);
    let m = cited + usize::from(o.m);
    if back {
        over_peak(desk, at, m, o.place, n, 0);
    } else {
        over_peak(desk, at, n, 0, m, o.place);
    }
}

// The way across an entry, noted from the step of number at on.
pub fn note_middle(desk: &mut Desk, at: usize, cited: usize, e: Entry, back: bool)
    requires { (at + length (across 0 e) ≤ most_steps) × (cited ≤ 64) }
    ensures { Notes desk.old at (middle back cited e) desk.new }
{
    match e {
        Entry::OfEquation(k) => desk.note_step(at, usize::from(k), back, 0),
        Entry::OfDeleted(j) => desk.note_step(at, cited + usize::from(j), back, 0),
        Entry::OfOverlap(o) => note_overlap(desk, at, cited, o, back),
    }
}

// The same in a work buffer of which nothing else is known.
pub fn put_middle(work: &mut [u8], at: usize, cited: usize, e: Entry, back: bool)
    requires { (work_room ≤ length work.old) × (at + length (across 0 e) ≤ most_steps) × (cited ≤ 64) }
    ensures { work.new ≡ noted work.old at (middle back cited e) }
{
    let mut desk = Desk::start(work);
    note_middle(&mut desk, at, cited, e, back);
}

// How many steps lead across an entry.
pub fn middle_length(e: Entry) -> usize
    ensures { (result ≡ length (across 0 e)) × (result ≤ 2) }
{
    match e {
        Entry::OfEquation(_) | Entry::OfDeleted(_) => 1,
        Entry::OfOverlap(_) => 2,
    }
}
