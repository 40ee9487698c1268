// The line of one member of a list after another. The line before is kept, and of it only the entries of the vertices around which the
// order has changed are written anew: since the same edges are in them, all entries have the same places in all lines.
// Which orders have changed is seen by the edge that follows each dart's, read in order of the darts, so that a line costs a look at
// each dart, one copy of the line, and the entries that change.
ghost use Rattle.std.specs.Prelude.{◌≡◌, ℕ, ◌<◌, ◌≤◌, ◌+◌, ◌++◌, List, [], true, false, length, map, slice_index, slice_set, IfOk, IfSome, OnOk, All};
ghost use Rattle.std.specs.List.{splice};
ghost use Rattle.multigraph.specs.Darts.{dart_count};
ghost use Rattle.multigraph.specs.Graph.{edge_count};
ghost use Rattle.multigraph.specs.Marks.{is_marked};
ghost use Rattle.rotations.specs.Rotation.{order_at, IsRotationSystem};
ghost use Rattle.spqr_script.specs.Answers.Rotation.{rotation_text};
ghost use Rattle.spqr_session.specs.KeptLine.{separator, text_at, edges_around, entries_of, line_begin, ArePlaces, AreFollowers, AgreeUnmarked, IsWritten, IsKept};

use decimals::{push_number, push_spaced, push_word};
use multigraph::{Graph, Part, dart_count, tail};
use rotations::{RotIter, Rotation};
use spqr_script::{push_rotation_line, rotation_room};
use std::alloc::{AllocError, Global};

// The line after the last member has no more bytes.
const LAST_LINE: usize = 8;

// The line of a rotation system of a block, the place in it of each vertex's entry, and for each dart the edge that follows its edge
// around the vertex that it leaves. Beside them marks of the vertices whose entries may have changed, and room for the numbers of one
// entry and for its text.
#[derive(Drop)]
pub(super) struct KeptLine {
    line: Vec<u8>,
    places: Vec<usize>,
    followers: Vec<u32>,
    changed: Vec<bool>,
    numbers: Vec<u32>,
    entry: Vec<u8>,
}

// Writes the edges of a walk around a vertex of a part to a list, in the numbers of the whole graph.
fn set_numbers(
    numbers: &mut Vec<u32>,
    part: &Part,
    mut round: RotIter<'_>,
) -> Result<(), AllocError>
    requires { All (λ e. e < edge_count part.now.graph) round }
    ensures { OnOk result (numbers.new.items ≡ map (slice_index part.now.edges) round.entry) }
{
    numbers.clear();
    while let Some(e) = round.next() {
        numbers.push(part.edge(e))?;
    }
    Ok(())
}

// What comes before the entry of vertex v of a block.
fn separator_at(v: u32) -> &'static [u8]
    ensures { result.now ≡ separator v }
{
    match v {
        0 => b" ",
        _ => b"; ",
    }
}

// Appends the entry of vertex v with these edges, and what comes before it, to a text.
fn push_entry(out: &mut Vec<u8>, part: &Part, v: u32, numbers: &[u32]) -> Result<(), AllocError>
    requires { v < part.now.graph.vertex_count }
    ensures { OnOk result (out.new.items ≡ out.old.items ++ text_at part.now v numbers.now) }
{
    push_word(out, separator_at(v))?;
    push_number(out, u128::from(part.vertex(v)))?;
    push_word(out, b":")?;
    push_spaced(out, numbers)
}

// Notes which edge follows that of dart d, and marks the vertex v if it is another one than before.
fn note_follower(follower: u32, v: u32, d: u32, followers: &mut [u32], changed: &mut [bool])
    requires dart { d < length followers.old }
    requires vertex { v < length changed.old }
    ensures noted { followers.new ≡ slice_set followers.old d follower }
    ensures number { length changed.new ≡ length changed.old }
    ensures marks { (x : ℕ) → is_marked changed.new x ≡ false → is_marked changed.old x ≡ false }
    ensures same { is_marked changed.new v ≡ false → slice_index followers.old d ≡ follower }
{
    if followers[d as usize] != follower {
        followers[d as usize] = follower;
        changed[v as usize] = true;
    }
}

// Notes which edge follows that of each dart, and marks the vertices around which it is another one for some dart.
fn note_followers(g: &Graph, r: &Rotation, followers: &mut [u32], changed: &mut [bool])
    requires system { IsRotationSystem g.now r.now }
    requires darts { length followers.old ≡ dart_count g.now }
    requires vertices { length changed.old ≡ g.now.vertex_count }
    ensures noted { AreFollowers g.now r.now followers.new }
    ensures number { length changed.new ≡ g.now.vertex_count }
    ensures kept { (q : List (List ℕ)) → IsRotationSystem g.now q → AreFollowers g.now q followers.old
        → (v : ℕ) → v < g.now.vertex_count → is_marked changed.new v ≡ false
        → order_at r.now v ≡ order_at q v }
{
    for d in 0..dart_count(g) {
        let v = tail(g, d);
        note_follower(r.succ(v, d / 2), v, d, followers, changed);
    }
}

// Writes a text over what is at this place of a line.
fn write_over(line: &mut [u8], place: usize, text: &[u8])
    requires { place + length text.now ≤ length line.old }
    ensures { line.new ≡ splice line.old place (place + length text.now) text.now }
{
    let end = place + text.len();
    line[place..end].copy_from_slice(text);
}

impl KeptLine {
    // The line of a rotation system of block b.
    fn new(alloc: Global, b: u32, part: &Part, r: &Rotation) -> Result<KeptLine, AllocError>
        requires { IsRotationSystem part.now.graph r.now }
        ensures { IfOk result (λ kept. IsKept part.now b r.now kept.line.items kept.places.items
            kept.followers.items kept.changed.items) }
    {
        let mut kept = KeptLine::without_entries(alloc, b, part)?;
        note_followers(part.graph(), r, &mut kept.followers, &mut kept.changed);
        kept.push_entries(part, r)?;
        push_word(&mut kept.line, b"\n")?;
        Ok(kept)
    }

    // What comes before the entries.
    fn without_entries(alloc: Global, b: u32, part: &Part) -> Result<KeptLine, AllocError>
        ensures line { IfOk result (λ kept. kept.line.items ≡ line_begin b) }
        ensures places { IfOk result (λ kept. kept.places.items ≡ []) }
        ensures darts { IfOk result (λ kept. length kept.followers.items ≡ dart_count part.now.graph) }
        ensures vertices { IfOk result (λ kept. length kept.changed.items ≡ part.now.graph.vertex_count) }
    {
        let g = part.graph();
        let count = g.vertex_count() as usize;
        let mut line = Vec::with_capacity(alloc, rotation_room(part))?;
        push_word(&mut line, b"rotation ")?;
        push_number(&mut line, u128::from(b))?;
        push_word(&mut line, b" |")?;
        Ok(KeptLine {
            line,
            places: Vec::with_capacity(alloc, count)?,
            followers: vec![in alloc; 0; dart_count(g) as usize]?,
            changed: vec![in alloc; false; count]?,
            numbers: Vec::new(alloc),
            entry: Vec::new(alloc),
        })
    }

    // Appends the entries of all vertices, none of which is marked then.
    fn push_entries(&mut self, part: &Part, r: &Rotation) -> Result<(), AllocError>
        requires system { IsRotationSystem part.now.graph r.now }
        requires none { self.old.places.items ≡ [] }
        requires markable { length self.old.changed.items ≡ part.now.graph.vertex_count }
        ensures line { OnOk result (self.new.line.items
            ≡ self.old.line.items ++ entries_of part.now r.now 0 part.now.graph.vertex_count) }
        ensures places { OnOk result
            (ArePlaces part.now r.now (length self.old.line.items) self.new.places.items) }
        ensures followers { OnOk result (self.new.followers.items ≡ self.old.followers.items) }
        ensures markable { OnOk result (length self.new.changed.items ≡ part.now.graph.vertex_count) }
    {
        for v in 0..part.graph().vertex_count() {
            self.changed[v as usize] = false;
            self.places.push(self.line.len())?;
            set_numbers(&mut self.numbers, part, r.list(v))?;
            push_entry(&mut self.line, part, v, &self.numbers)?;
        }
        Ok(())
    }

    // The line.
    fn text(&self) -> &[u8]
        ensures { result.now ≡ self.now.line.items }
    {
        self.line.as_slice()
    }

    // Makes the line that of another rotation system of the block.
    fn renew(&mut self, part: &Part, r: &Rotation) -> Result<(), AllocError>
        requires system { IsRotationSystem part.now.graph r.now }
        requires kept { (b : ℕ) × (q : List (List ℕ)) × IsKept part.now b q self.old.line.items
            self.old.places.items self.old.followers.items self.old.changed.items }
        ensures { OnOk result ((b : ℕ) (q : List (List ℕ)) → IsKept part.now b q self.old.line.items
            self.old.places.items self.old.followers.items self.old.changed.items
            → IsKept part.now b r.now self.new.line.items self.new.places.items
            self.new.followers.items self.new.changed.items) }
    {
        note_followers(part.graph(), r, &mut self.followers, &mut self.changed);
        self.renew_entries(part, r)
    }

    // Writes the entries of the marked vertices anew.
    fn renew_entries(&mut self, part: &Part, r: &Rotation) -> Result<(), AllocError>
        requires system { IsRotationSystem part.now.graph r.now }
        requires written { (b : ℕ) × (q : List (List ℕ))
            × IsWritten part.now b q self.old.line.items self.old.places.items
            × AgreeUnmarked part.now.graph self.old.changed.items r.now q }
        requires markable { length self.old.changed.items ≡ part.now.graph.vertex_count }
        ensures written { OnOk result ((b : ℕ) (q : List (List ℕ))
            → IsWritten part.now b q self.old.line.items self.old.places.items
            → AgreeUnmarked part.now.graph self.old.changed.items r.now q
            → IsWritten part.now b r.now self.new.line.items self.new.places.items) }
        ensures followers { OnOk result (self.new.followers.items ≡ self.old.followers.items) }
        ensures markable { OnOk result (length self.new.changed.items ≡ part.now.graph.vertex_count) }
    {
        for v in 0..part.graph().vertex_count() {
            if self.changed[v as usize] {
                self.renew_entry(part, r, v)?;
            }
        }
        Ok(())
    }

    // Writes the entry of vertex v anew, which then is not marked.
    fn renew_entry(&mut self, part: &Part, r: &Rotation, v: u32) -> Result<(), AllocError>
        requires system { IsRotationSystem part.now.graph r.now }
        requires vertex { v < part.now.graph.vertex_count }
        requires place { v < length self.old.places.items }
        requires mark { v < length self.old.changed.items }
        requires room { slice_index self.old.places.items v
            + length (text_at part.now v (edges_around part.now r.now v)) ≤ length self.old.line.items }
        ensures line { OnOk result (self.new.line.items
            ≡ splice self.old.line.items (slice_index self.old.places.items v) (slice_index self.old.places.items v
            + length (text_at part.now v (edges_around part.now r.now v)))
            (text_at part.now v (edges_around part.now r.now v))) }
        ensures places { OnOk result (self.new.places.items ≡ self.old.places.items) }
        ensures followers { OnOk result (self.new.followers.items ≡ self.old.followers.items) }
        ensures changed { OnOk result (self.new.changed.items ≡ slice_set self.old.changed.items v false) }
    {
        self.changed[v as usize] = false;
        set_numbers(&mut self.numbers, part, r.list(v))?;
        self.entry.clear();
        push_entry(&mut self.entry, part, v, &self.numbers)?;
        write_over(&mut self.line, self.places[v as usize], &self.entry);
        Ok(())
    }
}

// The line of a rotation system of block b, in the place of that of another one, if there is one.
fn line_of(
    alloc: Global,
    before: Option<KeptLine>,
    b: u32,
    part: &Part,
    r: &Rotation,
) -> Result<KeptLine, AllocError>
    requires system { IsRotationSystem part.now.graph r.now }
    requires kept { IfSome before (λ kept. (q : List (List ℕ)) × IsKept part.now b q kept.line.items
        kept.places.items kept.followers.items kept.changed.items) }
    ensures { IfOk result (λ kept. IsKept part.now b r.now kept.line.items kept.places.items
        kept.followers.items kept.changed.items) }
{
    match before {
        Some(mut kept) => {
            kept.renew(part, r)?;
            Ok(kept)
        }
        None => KeptLine::new(alloc, b, part, r),
    }
}

// Appends the line of a rotation system of block b to a text with room for this many lines and the last one, and keeps it. Of a block
// with two vertices no line is kept: no two of its rotation systems have the same entry.
pub(super) fn push_member(
    alloc: Global,
    out: &mut Vec<u8>,
    before: Option<KeptLine>,
    b: u32,
    part: &Part,
    r: &Rotation,
    lines: u32,
) -> Result<Option<KeptLine>, AllocError>
    requires system { IsRotationSystem part.now.graph r.now }
    requires kept { IfSome before (λ kept. (q : List (List ℕ)) × IsKept part.now b q kept.line.items
        kept.places.items kept.followers.items kept.changed.items) }
    ensures line { OnOk result (out.new.items ≡ out.old.items ++ rotation_text part.now b r.now) }
    ensures kept { IfOk result (λ after. IfSome after (λ kept. (q : List (List ℕ)) × IsKept part.now b q kept.line.items
        kept.places.items kept.followers.items kept.changed.items)) }
{
    if part.graph().vertex_count() == 2 {
        push_rotation_line(alloc, out, b, part, r)?;
        return Ok(None);
    }
    let kept = line_of(alloc, before, b, part, r)?;
    let room = kept.text().len().saturating_mul(lines as usize);
    out.reserve(room.saturating_add(LAST_LINE))?;
    out.extend_from_slice(kept.text())?;
    Ok(Some(kept))
}
