// Which blocks may cross another one, found in one pass through the list of their ranks.

ghost use Rattle.std.specs.Prelude.{◌≡◌, ◌+◌, ◌<◌, ◌≤◌, ◌^◌, ℕ, true, false, length, take, IfOk, slice_index, slice_index_or};
ghost use Rattle.arrangements.specs.Groups.{AreEnds, AreGroups, AreNoted, HaveRoom, Hold, is_noted};

use std::alloc::{AllocError, Global};

// By rank, the first and the last place of its block, and whether the block may cross another one; and the stack of the groups that
// are not finished: the place where each begins, and the greatest last place of its blocks.
#[derive(Debug, Drop)]
pub(crate) struct Groups {
    first: Vec<u32>,
    last: Vec<u32>,
    noted: Vec<bool>,
    starts: Vec<u32>,
    ends: Vec<u32>,
}

// Writes the first place of each rank.
fn write_first(first: &mut [u32], ranks: &[u32])
    requires few { length ranks.now < 2 ^ 32 }
    requires below { (i : ℕ) → i < length ranks.now → slice_index ranks.now i < length first.old }
    ensures begins { (p : ℕ) → p < length ranks.now → slice_index first.new (slice_index ranks.now p) ≤ p }
    ensures there { (p : ℕ) → p < length ranks.now → slice_index ranks.now (slice_index first.new
        (slice_index ranks.now p)) ≡ slice_index ranks.now p }
    ensures size { length first.new ≡ length first.old }
{
    for i in 0..ranks.len() {
        let place = ranks.len() - 1 - i;
        first[ranks[place] as usize] = place as u32;
    }
}

// Writes the last place of each rank.
fn write_last(last: &mut [u32], ranks: &[u32])
    requires few { length ranks.now < 2 ^ 32 }
    requires below { (i : ℕ) → i < length ranks.now → slice_index ranks.now i < length last.old }
    ensures ends { (p : ℕ) → p < length ranks.now → p ≤ slice_index last.new (slice_index ranks.now p) }
    ensures size { length last.new ≡ length last.old }
{
    for i in 0..ranks.len() {
        last[ranks[i] as usize] = i as u32;
    }
}

// How many groups are left without those on top that end before a place.
fn unfinished(ends: &[u32], place: usize) -> usize
    ensures within { result ≤ length ends.now }
    ensures finished { (k : ℕ) → result ≤ k → k < length ends.now → slice_index ends.now k < place }
{
    let mut count = ends.len();
    while count > 0 && (ends[count - 1] as usize) < place {
        count -= 1;
    }
    count
}

// How many groups are left without those on top that begin after a place.
fn begun_until(starts: &[u32], place: u32) -> usize
    ensures within { result ≤ length starts.now }
    ensures later { (k : ℕ) → result ≤ k → k < length starts.now → place < slice_index starts.now k }
    ensures top { (k : ℕ) → result ≡ k + 1 → slice_index starts.now k ≤ place }
{
    let mut count = starts.len();
    while count > 0 && starts[count - 1] > place {
        count -= 1;
    }
    count
}

// The greatest of the numbers from a place on; 0 if there is none.
fn greatest_from(numbers: &[u32], from: usize) -> u32
    ensures { (k : ℕ) → from ≤ k → k < length numbers.now → slice_index numbers.now k ≤ result }
{
    let mut most = 0;
    for i in from..numbers.len() {
        if numbers[i] > most {
            most = numbers[i];
        }
    }
    most
}

// Notes the blocks with which the groups from number `from` on begin.
fn note_starts(noted: &mut [bool], ranks: &[u32], starts: &[u32], from: usize)
    requires starts { (k : ℕ) → k < length starts.now → slice_index starts.now k < length ranks.now }
    requires below { (i : ℕ) → i < length ranks.now → slice_index ranks.now i < length noted.old }
    ensures noted { (k : ℕ) → from ≤ k → k < length starts.now → is_noted noted.new
        (slice_index ranks.now (slice_index starts.now k)) ≡ true }
    ensures kept { (r : ℕ) → is_noted noted.old r ≡ true → is_noted noted.new r ≡ true }
    ensures size { length noted.new ≡ length noted.old }
{
    for k in from..starts.len() {
        noted[ranks[starts[k] as usize] as usize] = true;
    }
}

impl Groups {
    // Room for a list of this many edges.
    pub(crate) fn new(alloc: Global, count: usize) -> Result<Groups, AllocError>
        ensures { IfOk result (λ g. HaveRoom g count) }
    {
        Ok(Groups {
            first: vec![in alloc; 0; count]?,
            last: vec![in alloc; 0; count]?,
            noted: vec![in alloc; false; count]?,
            starts: Vec::with_capacity(alloc, count)?,
            ends: Vec::with_capacity(alloc, count)?,
        })
    }

    // Whether the block of a rank may cross another one.
    pub(crate) fn is_noted(&self, rank: u32) -> bool
        requires { rank < length self.now.noted.items }
        ensures { result ≡ is_noted self.now.noted.items rank }
    {
        self.noted[rank as usize]
    }

    // Begins a pass.
    fn begin(&mut self, ranks: &[u32])
        requires room { HaveRoom self.old (length ranks.now) }
        requires few { length ranks.now < 2 ^ 32 }
        requires below { (i : ℕ) → i < length ranks.now → slice_index ranks.now i < length ranks.now }
        ensures room { HaveRoom self.new (length ranks.now) }
        ensures ends { AreEnds ranks.now self.new.first.items self.new.last.items }
        ensures hold { Hold self.new ranks.now 0 }
    {
        write_first(&mut self.first, ranks);
        write_last(&mut self.last, ranks);
        self.noted.fill(false);
        self.starts.clear();
        self.ends.clear();
    }

    // Takes the groups off the stack that end before place i.
    fn close(&mut self, ranks: &[u32], i: usize)
        requires room { HaveRoom self.old (length ranks.now) }
        requires hold { Hold self.old ranks.now i }
        ensures room { HaveRoom self.new (length ranks.now) }
        ensures hold { Hold self.new ranks.now i }
        ensures first { self.new.first ≡ self.old.first }
        ensures last { self.new.last ≡ self.old.last }
    {
        let count = unfinished(&self.ends, i);
        self.starts.truncate(count);
        self.ends.truncate(count);
    }

    // A group begins with the block at place i.
    fn open(&mut self, ranks: &[u32], i: usize)
        requires place { i < length ranks.now }
        requires few { length ranks.now < 2 ^ 32 }
        requires below { slice_index ranks.now i < length ranks.now }
        requires room { HaveRoom self.old (length ranks.now) }
        requires ends { AreEnds ranks.now self.old.first.items self.old.last.items }
        requires hold { Hold self.old ranks.now i }
        requires begins { slice_index self.old.first.items (slice_index ranks.now i) ≡ i }
        ensures room { HaveRoom self.new (length ranks.now) }
        ensures hold { Hold self.new ranks.now (i + 1) }
        ensures first { self.new.first ≡ self.old.first }
        ensures last { self.new.last ≡ self.old.last }
    {
        self.starts.push_reserved(i as u32);
        self.ends.push_reserved(self.last[ranks[i] as usize]);
    }

    // The block at place i has begun before: it crosses all blocks with which the groups above its own begin, and these become one
    // group with its own.
    fn join(&mut self, ranks: &[u32], i: usize)
        requires place { i < length ranks.now }
        requires below { (j : ℕ) → j < length ranks.now → slice_index ranks.now j < length ranks.now }
        requires room { HaveRoom self.old (length ranks.now) }
        requires ends { AreEnds ranks.now self.old.first.items self.old.last.items }
        requires hold { Hold self.old ranks.now i }
        requires begun { slice_index self.old.first.items (slice_index ranks.now i) < i }
        ensures room { HaveRoom self.new (length ranks.now) }
        ensures hold { Hold self.new ranks.now (i + 1) }
        ensures first { self.new.first ≡ self.old.first }
        ensures last { self.new.last ≡ self.old.last }
    {
        let rank = ranks[i] as usize;
        let count = begun_until(&self.starts, self.first[rank]);
        if count == self.starts.len() {
            return;
        }
        let end = greatest_from(&self.ends, count - 1);
        note_starts(&mut self.noted, ranks, &self.starts, count);
        self.noted[rank] = true;
        self.starts.truncate(count);
        self.ends.truncate(count);
        self.ends[count - 1] = end;
    }

    // Goes past place i.
    fn pass(&mut self, ranks: &[u32], i: usize)
        requires place { i < length ranks.now }
        requires few { length ranks.now < 2 ^ 32 }
        requires below { (j : ℕ) → j < length ranks.now → slice_index ranks.now j < length ranks.now }
        requires room { HaveRoom self.old (length ranks.now) }
        requires ends { AreEnds ranks.now self.old.first.items self.old.last.items }
        requires hold { Hold self.old ranks.now i }
        ensures room { HaveRoom self.new (length ranks.now) }
        ensures hold { Hold self.new ranks.now (i + 1) }
        ensures first { self.new.first ≡ self.old.first }
        ensures last { self.new.last ≡ self.old.last }
    {
        self.close(ranks, i);
        if self.first[ranks[i] as usize] as usize == i {
            self.open(ranks, i);
        } else {
            self.join(ranks, i);
        }
    }

    // Notes each block that crosses another one, in one pass through the list of ranks. (It notes no others, which nothing rests on.)
    pub(crate) fn note_crossing(&mut self, ranks: &[u32])
        requires room { HaveRoom self.old (length ranks.now) }
        requires few { length ranks.now < 2 ^ 32 }
        requires below { (i : ℕ) → i < length ranks.now → slice_index ranks.now i < length ranks.now }
        ensures room { HaveRoom self.new (length ranks.now) }
        ensures noted { AreNoted ranks.now self.new.noted.items }
    {
        self.begin(ranks);
        for i in 0..ranks.len() {
            self.pass(ranks, i);
        }
    }
}
