// The ring of waiting entries: the oldest is taken, and its place is free again.
ghost use Rattle.std.specs.Prelude.{◌≡◌, ◌+◌, ◌*◌, ◌≤◌, length};
ghost use Rattle.std.proofs.Math.Seq.{paste};
ghost use Rattle.workspace.specs.Areas.{ring_start};
ghost use Rattle.workspace.specs.Waiting.{append};
ghost use Rattle.workspace.specs.Work.{entry_bytes, entry_at};
ghost use Rattle.workspace.specs.Desk.{state, Leaves, Pops};

use crate::areas::{MOST_WAITING, RING_START};
use crate::{Desk, Entry, Nums, Overlap};
use buffers::put;
use words::Refusal;

// An entry's four bytes. With entry_at it is the ring's own form of an entry, of which a From would make a conversion for all to use.
#[tactic(auto, unfolding(crate::specs::Work::entry_bytes))]
fn entry_bytes(e: Entry) -> [u8; 4]
    ensures { result ≡ entry_bytes e }
{
    match e {
        Entry::OfEquation(k) => [0, k, 0, 0],
        Entry::OfDeleted(j) => [1, j, 0, 0],
        Entry::OfOverlap(Overlap { n, m, place }) => [2, n, m, place],
    }
}

// Writes an entry from the byte at on.
fn put_entry(work: &mut [u8], at: usize, e: Entry)
    requires { at + 4 ≤ length work.old }
    ensures { work.new ≡ paste work.old at (entry_bytes e) 4 }
{
    put(work, at, &entry_bytes(e));
}

// The entry whose bytes start at the byte at.
fn entry_at(work: &[u8], at: usize) -> Entry
    requires { at + 4 ≤ length work.now }
    ensures { result ≡ entry_at work.now at }
{
    let a = work[at + 1];
    match work[at] {
        0 => Entry::OfEquation(a),
        1 => Entry::OfDeleted(a),
        _ => Entry::OfOverlap(Overlap {
            n: a,
            m: work[at + 2],
            place: work[at + 3],
        }),
    }
}

impl<'a> Desk<'a> {
    // Appends an entry behind those that wait.
    pub fn push(&mut self, e: Entry) -> Result<(), Refusal>
        ensures { Leaves self.old self.new result (append e (state self.old)) }
    {
        if MOST_WAITING <= self.nums.count {
            return Err(Refusal::ManyWaiting);
        }
        let place = (self.nums.head + self.nums.count) % MOST_WAITING;
        put_entry(self.work, RING_START + 4 * place, e);
        self.nums.count += 1;
        Ok(())
    }

    // The entry at the head of the ring.
    fn head(&self) -> Entry
        ensures { result ≡ entry_at self.now.work.now (ring_start + 4 * self.now.nums.head) }
    {
        entry_at(self.work, RING_START + 4 * self.nums.head)
    }

    // Takes the oldest entry.
    pub fn pop(&mut self) -> Option<Entry>
        ensures { Pops self.old self.new result }
    {
        if self.nums.count == 0 {
            return None;
        }
        let e = self.head();
        let nums = self.nums;
        self.nums = Nums {
            head: (nums.head + 1) % MOST_WAITING,
            count: nums.count - 1,
            ..nums
        };
        Some(e)
    }
}
