// The reader of lists of doubles.
#![tactic(auto)]

ghost use Rattle.std.specs.Prelude.{◌≡◌, ℕ, ◌<◌, ◌≤◌, List, length, slice_index_or, Option, IfErr};
ghost use Rattle.fields.specs.Limits.{◌to◌};
ghost use Rattle.fields.specs.Quantities.{head_fields};
ghost use Rattle.fields.specs.Outcomes.{over};
ghost use Rattle.list.specs.Lists.{amounts_of, count_in, counts_in, list_outcome};
ghost use Rattle.list.specs.Measures.{section_of, entry_of, amounts_of_segment, amounts_of_entry};
ghost use Rattle.list.specs.Measures.{GivenBy, Written, head_amounts, segments_amounts, ages_amounts};
ghost use Rattle.list.specs.Laws.{list_accepted};
ghost use Rattle.list.specs.Conditions.{HeadField, SegmentsFit, ListFits};

use fields::layout::{AGES, HEAD_FIELDS, PER_AGE, PER_SEGMENT, SECOND_SEGMENTS, SEGMENTS};
use fields::limits::{LEAST_AGES, MOST_AGES, MOST_FIELDS, MOST_SEGMENTS};
use fields::places;
use fields::read::{self, Counts, Reader};
use fields::refusal::Refusal;

// The section's five measures: fields 14 to 18.
#[derive(Clone, Copy)]
pub struct Section {
    pub area: f64,
    pub inertia: f64,
    pub eccentricity: f64,
    pub steel_area: f64,
    pub own_weight_moment: f64,
}

// A segment: straight with a length, parabola with length and rise, bend with an angle.
#[derive(Clone, Copy)]
pub enum Segment {
    Straight(f64),
    Parabola { length: f64, rise: f64 },
    Bend(f64),
}

// The three doubles of a segment: a segment as document 01 lists it, or what is none, held as it came until the rows "doubles",
// "codes" and "ranges" refuse it. It is no Result: what is not listed is no error here, and is read on.
#[derive(Clone, Copy)]
pub enum Entry {
    Listed(Segment),
    Unlisted { kind: f64, second: f64, third: f64 },
}

impl Section {
    // The section of a list.
    fn of(list: &[f64]) -> Section
        requires { head_fields ≤ length list.now }
        ensures { result ≡ section_of list.now }
    {
        Section {
            area: list[places::AREA],
            inertia: list[places::INERTIA],
            eccentricity: list[places::ECCENTRICITY],
            steel_area: list[places::STEEL_AREA],
            own_weight_moment: list[places::OWN_WEIGHT_MOMENT],
        }
    }
}

impl Segment {
    // What its three fields read; the third is a rise, or a bend's angle. A code is a number still, as a card's field reads it.
    fn amounts(self) -> [Option<u64>; PER_SEGMENT]
        ensures { result ≡ amounts_of_segment self }
    {
        match self {
            Segment::Straight(length) => [
                Some(places::STRAIGHT),
                ticks::ticks_of_double(length),
                Some(0),
            ],
            Segment::Parabola { length, rise } => [
                Some(places::PARABOLA),
                ticks::ticks_of_double(length),
                ticks::ticks_of_double(rise),
            ],
            Segment::Bend(angle) => [Some(places::BEND), Some(0), ticks::ticks_of_double(angle)],
        }
    }
}

impl Entry {
    // A straight has no rise and a bend no length: where a double says otherwise, its segment is none that is listed. A code is a number
    // still.
    fn of(kind: f64, second: f64, third: f64) -> Entry
        ensures { result ≡ entry_of kind second third }
    {
        let code = ticks::whole_of_double(kind);
        if code == Some(places::STRAIGHT) && ticks::ticks_of_double(third) == Some(0) {
            return Entry::Listed(Segment::Straight(second));
        }
        if code == Some(places::PARABOLA) {
            return Entry::Listed(Segment::Parabola {
                length: second,
                rise: third,
            });
        }
        if code == Some(places::BEND) && ticks::ticks_of_double(second) == Some(0) {
            return Entry::Listed(Segment::Bend(third));
        }
        Entry::Unlisted {
            kind,
            second,
            third,
        }
    }

    fn amounts(self) -> [Option<u64>; PER_SEGMENT]
        ensures { result ≡ amounts_of_entry self }
    {
        match self {
            Entry::Listed(segment) => segment.amounts(),
            Entry::Unlisted {
                kind,
                second,
                third,
            } => [
                ticks::whole_of_double(kind),
                ticks::ticks_of_double(second),
                ticks::ticks_of_double(third),
            ],
        }
    }
}

// What a field of the head reads. Document 01 says by its number whether it is kept in ticks, and so does its place, here and below.
#[tactic(auto, using(crate::proofs::Amounts::head_at))]
fn head_amount(head: &[f64], section: Section, at: usize) -> Option<u64>
    requires { HeadField head.now section at }
    ensures { result ≡ slice_index_or (head_amounts head.now) at None }
{
    match at {
        places::SLIP | places::TENDON_LENGTH | places::VOLUME_TO_SURFACE => {
            ticks::ticks_of_double(head[at])
        }
        places::AREA => ticks::ticks_of_double(section.area),
        places::INERTIA => ticks::ticks_of_double(section.inertia),
        places::ECCENTRICITY => ticks::ticks_of_double(section.eccentricity),
        places::STEEL_AREA => ticks::ticks_of_double(section.steel_area),
        places::OWN_WEIGHT_MOMENT => ticks::ticks_of_double(section.own_weight_moment),
        _ => ticks::whole_of_double(head[at]),
    }
}

// What a field of the ages reads.
#[tactic(auto, using(crate::proofs::Amounts::age_at))]
fn age_amount(ages: &[f64], at: usize) -> Option<u64>
    requires { at < length ages.now }
    ensures { result ≡ slice_index_or (ages_amounts ages.now) at None }
{
    if at % PER_AGE == 0 {
        return ticks::whole_of_double(ages[at]);
    }
    ticks::ticks_of_double(ages[at])
}

// Writes the numbers of `count` fields up to the first that is refused, and fails with how many these are, which is the refused field's
// place. A field is read by its place, which says how.
fn write<F: Fn(usize) -> Option<u64>>(
    count: usize,
    amount: F,
    fields: &mut [u64],
) -> Result<(), usize>
    requires callable { (at : ℕ) → at < count → F.pre amount at }
    requires room { count ≤ length fields.old }
    ensures within { IfErr result (λ read. read < count) }
    ensures written { (amounts : List (Option ℕ)) → GivenBy (F.post amount) count amounts → Written amounts fields.old fields.new result }
{
    for (at, number) in fields[..count].iter_mut().enumerate() {
        *number = amount(at).ok_or(at)?;
    }
    Ok(())
}

// The same of the segments: each is made once of its three doubles, and read as what it then is.
fn read_segments(part: &[f64], fields: &mut [u64]) -> Result<(), usize>
    requires { SegmentsFit part.now fields.old }
    ensures { Written (segments_amounts part.now) fields.old fields.new result }
{
    for (passed, doubles) in part.chunks_exact(PER_SEGMENT).enumerate() {
        // The rest of the numbers is lent to each, the form that document 01 names for rows.
        let at = PER_SEGMENT * passed;
        let amounts = Entry::of(doubles[0], doubles[1], doubles[2]).amounts();
        write(PER_SEGMENT, |k| amounts[k], &mut fields[at..]).map_err(|read| at + read)?;
    }
    Ok(())
}

// The same of the whole list, part by part.
fn read_fields(list: &[f64], segments: usize, fields: &mut [u64]) -> Result<(), usize>
    requires { ListFits list.now segments fields.old }
    ensures { Written (amounts_of segments 1 list.now) fields.old fields.new result }
{
    let head = &list[..HEAD_FIELDS];
    let section = Section::of(head);
    write(HEAD_FIELDS, |at| head_amount(head, section, at), fields)?;
    let first_age = HEAD_FIELDS + PER_SEGMENT * segments;
    let part = &list[HEAD_FIELDS..first_age];
    read_segments(part, &mut fields[HEAD_FIELDS..]).map_err(|read| HEAD_FIELDS + read)?;
    let ages = &list[first_age..];
    write(
        ages.len(),
        |at| age_amount(ages, at),
        &mut fields[first_age..],
    )
    .map_err(|read| first_age + read)
}

// The count in a field of a list: a whole number in its range.
#[tactic(auto, unfolding(crate::specs::Lists::count_in))]
fn count(list: &[f64], field: usize, least: usize, most: usize) -> Result<usize, Refusal>
    requires first { 1 ≤ field }
    requires listed { field ≤ length list.now }
    ensures { result ≡ count_in field (least to most) list.now }
{
    let whole = ticks::whole_of_double(list[field - 1]).ok_or(Refusal::Doubles(field as u64))?;
    read::count_within(field, least, most, whole)
}

// The counts of a list of the length that they ask for. Each is decoded and ranged before the next is looked at.
#[tactic(auto, unfolding(crate::specs::Lists::counts_in))]
fn counts(list: &[f64]) -> Result<Counts, Refusal>
    ensures { result ≡ counts_in list.now }
{
    if list.len() < HEAD_FIELDS {
        return Err(Refusal::Shape(0));
    }
    let segments = count(list, SEGMENTS, 0, MOST_SEGMENTS)?;
    let ages = count(list, AGES, LEAST_AGES, MOST_AGES)?;
    let second_segments = count(list, SECOND_SEGMENTS, 0, MOST_SEGMENTS)?;
    let both = segments + second_segments;
    if list.len() != HEAD_FIELDS + PER_SEGMENT * both + PER_AGE * ages {
        return Err(Refusal::Shape(0));
    }
    Ok(Counts {
        segments,
        ages,
        second_segments,
    })
}

// Lists of doubles, as the core reads them.
pub struct Lists;

impl Reader for Lists {
    type Item = f64;

    ghost outcome = { list_outcome };

    fn read(list: &[f64], numbers: &mut [u64; MOST_FIELDS]) -> Result<Counts, Refusal> {
        let counts = counts(list)?;
        let segments = counts.segments + counts.second_segments;
        read_fields(list, segments, numbers).map_err(|at| Refusal::Doubles(at as u64 + 1))?;
        Ok(counts)
    }

    ghost accepted = { list_accepted };
}

// Reads a list: its numbers go to the front of `fields`, all of them or those before the first field that is refused.
pub fn read_list(list: &[f64], fields: &mut [u64; MOST_FIELDS]) -> Result<Counts, Refusal>
    ensures value { result ≡ (list_outcome list.now).reading }
    ensures fields_after { fields.new ≡ over (list_outcome list.now).numbers fields.old }
{
    Lists::read(list, fields)
}
