// What stands in fields one after the other, so many fields to each: the segments of a path, or ages; and the way along them.
ghost use Rattle.std.specs.Prelude.{ℕ, List, ◌≡◌, ◌+◌, ◌*◌, ◌<◌, ◌≤◌, ◌^◌, drop, length};
ghost use Rattle.std.specs.Iterator.{at_most};
ghost use Rattle.fields.specs.Quantities.{parts_from};
ghost use Rattle.fields.specs.Sizes.{most_fields};
ghost use Rattle.fields.specs.Along.{parts_of, GivesPart, Front};

use crate::limits::MOST_FIELDS;
use std::marker::PhantomData;

pub trait Part: Copy {
    ghost FIELDS: { ℕ };

    // How many fields it has.
    const FIELDS: usize;

    // What it is, by the fields from its first on.
    ghost part_at: { List ℕ → Self };

    // The part whose fields `fields` begins with.
    fn at(fields: &[u64]) -> Self
        requires { FIELDS ≤ length fields.now }
        ensures { result ≡ part_at fields.now };

    ghost some_fields: { 0 < FIELDS };

    ghost front: { Front FIELDS part_at };
}

// Parts one after the other: their fields, and the number of the first of these.
#[derive(Drop)]
pub struct Parts<'a, P> {
    pub fields: &'a [u64],
    pub place: u64,
    part: PhantomData<P>,
    ghost numbered: { place + length fields.now < 2 ^ 64 },
}

impl<'a, P: Part> Parts<'a, P> {
    // The parts that some fields are, of which the first is field number `place`.
    pub fn new(fields: &'a [u64], place: u64) -> Parts<'a, P>
        requires { place + length fields.now < 2 ^ 64 }
        ensures fields { result.fields.now ≡ fields.now }
        ensures place { result.place ≡ place }
    {
        Parts {
            fields,
            place,
            part: PhantomData,
        }
    }

    // So many parts, of which the first begins with element `first` of all fields.
    #[tactic(auto, using(crate::proofs::Along::parts_in))]
    pub fn of(numbers: &'a [u64; MOST_FIELDS], first: usize, count: usize) -> Parts<'a, P>
        requires { first + P.FIELDS * count ≤ most_fields }
        ensures place { result.place ≡ first + 1 }
        ensures parts { parts_of P.FIELDS P.part_at result.fields.now
            ≡ parts_from P.FIELDS P.part_at count (drop first numbers.now) }
    {
        let all = &numbers[..];
        Parts::new(&all[first..first + P::FIELDS * count], first as u64 + 1)
    }
}

// Each part with the number of its first field.
impl<'a, P: Part> Iterator for Parts<'a, P> {
    type Item = (u64, P);

    ghost remaining = { λ parts. at_most (length parts.fields.now) };

    ghost next_gives = { λ old given new.
        GivesPart P.FIELDS P.part_at old.fields.now old.place given new.fields.now new.place };

    #[tactic(auto, using(crate::proofs::Along::none_left, crate::proofs::Along::first_left, std::proofs::lemmas::List::take_rest))]
    fn next(&mut self) -> Option<(u64, P)> {
        let later = self.fields.get(P::FIELDS..)?;
        let numbered = (self.place, P::at(self.fields));
        *self = Parts {
            fields: later,
            place: self.place + P::FIELDS as u64,
            part: PhantomData,
        };
        Some(numbered)
    }
}
