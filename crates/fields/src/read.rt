// What reading a card or a list gives: its counts of the segments of its paths and of its ages, and its fields.
ghost use Rattle.std.specs.Prelude.{◌≡◌, ◌+◌, ◌*◌, List, length};
ghost use Rattle.fields.specs.Limits.{◌to◌, count_within};
ghost use Rattle.fields.specs.Quantities.{Quantities, is_pretensioned, is_moist, has_second_path, both_paths, quantities_of};
ghost use Rattle.fields.specs.Quantities.{per_segment, first_segment_field, first_age_field};
ghost use Rattle.fields.specs.Along.{segments_of, ages_of};
ghost use Rattle.fields.specs.Outcomes.{Outcome, over};
ghost use Rattle.fields.specs.Readable.{Readable, AcceptedIfRead};

use crate::layout::{HEAD_FIELDS, PER_SEGMENT};
use crate::limits::MOST_FIELDS;
use crate::parts::Parts;
use crate::places;
use crate::refusal::Refusal;
use crate::segments::{Age, Segment};
use std::marker::Model;

// What fields 23 to 25 count. Without a second path its count is 0.
#[derive(Clone, Copy)]
pub struct Counts {
    pub segments: usize,
    pub ages: usize,
    pub second_segments: usize,
}

// The count that a field gives, in its range.
pub fn count_within(field: usize, least: usize, most: usize, count: u64) -> Result<usize, Refusal>
    ensures { result ≡ count_within field (least to most) count }
{
    let counted = count as usize;
    if !(least..=most).contains(&counted) {
        return Err(Refusal::Ranges(field as u64));
    }
    Ok(counted)
}

// The numbers that a reader has read, and their counts. Contracts see them as the quantities that they are.
#[derive(Drop)]
pub struct Fields<'a> {
    pub numbers: &'a [u64; MOST_FIELDS],
    pub counts: Counts,
}

impl<'a> Model for Fields<'a> {
    ghost Value = { Quantities };

    ghost view = { λ fields. quantities_of fields.counts fields.numbers.now };

    ghost invariant = { λ fields. Readable fields.counts fields.numbers.now };
}

impl<'a> Fields<'a> {
    pub fn new(numbers: &'a [u64; MOST_FIELDS], counts: Counts) -> Fields<'a>
        requires { Readable counts numbers.now }
        ensures { result ≡ quantities_of counts numbers.now }
    {
        Fields { numbers, counts }
    }

    // A code is a number still, here and below.
    pub fn is_pretensioned(&self) -> bool
        ensures { result ≡ is_pretensioned self.now }
    {
        self.numbers[places::KIND] == places::PRETENSIONED
    }

    pub fn is_moist(&self) -> bool
        ensures { result ≡ is_moist self.now }
    {
        self.numbers[places::CURE] == places::MOIST
    }

    // Whether there is a second path.
    #[tactic(auto, using(crate::proofs::Counting::second_count))]
    pub fn has_second_path(&self) -> bool
        ensures { result ≡ has_second_path self.now }
    {
        0 < self.counts.second_segments
    }

    // The first path's segments.
    pub fn path(&self) -> Parts<'a, Segment>
        ensures place { result.place ≡ first_segment_field }
        ensures path { segments_of result.fields.now ≡ self.now.path }
    {
        Parts::of(self.numbers, HEAD_FIELDS, self.counts.segments)
    }

    // The second path's segments.
    #[tactic(auto, using(crate::proofs::Counting::path_count))]
    pub fn second_path(&self) -> Parts<'a, Segment>
        ensures place { result.place ≡ first_segment_field + per_segment * length self.now.path }
        ensures path { segments_of result.fields.now ≡ self.now.second_path }
    {
        let first = HEAD_FIELDS + PER_SEGMENT * self.counts.segments;
        Parts::of(self.numbers, first, self.counts.second_segments)
    }

    // The segments of both paths.
    pub fn both_paths(&self) -> Parts<'a, Segment>
        ensures place { result.place ≡ first_segment_field }
        ensures paths { segments_of result.fields.now ≡ both_paths self.now }
    {
        let segments = self.counts.segments + self.counts.second_segments;
        Parts::of(self.numbers, HEAD_FIELDS, segments)
    }

    // The ages.
    pub fn ages(&self) -> Parts<'a, Age>
        ensures place { result.place ≡ first_age_field (length (both_paths self.now)) }
        ensures ages { ages_of result.fields.now ≡ self.now.ages }
    {
        let segments = self.counts.segments + self.counts.second_segments;
        let first_age = HEAD_FIELDS + PER_SEGMENT * segments;
        Parts::of(self.numbers, first_age, self.counts.ages)
    }
}

// A way to read fields: from a card, from a list, or from a list's bytes.
pub trait Reader {
    type Item;

    // What an input gives: its counts or its refusal, and the numbers that are then written.
    ghost outcome: { List Self.Item → Outcome };

    // The counts; the numbers before the first field that is refused are written at the front of `numbers`.
    fn read(input: &[Self::Item], numbers: &mut [u64; MOST_FIELDS]) -> Result<Counts, Refusal>
        ensures value { result ≡ (outcome input.now).reading }
        ensures numbers_after { numbers.new ≡ over (outcome input.now).numbers numbers.old };

    ghost accepted: { (input : List Self.Item) → AcceptedIfRead (outcome input) };
}
