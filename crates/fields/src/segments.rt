// A segment of a path and an age, as their fields stand on a card or a list.
ghost use Rattle.std.proofs.Common.{rules};
ghost use Rattle.fields.specs.Quantities.{per_segment, per_age, segment_at, age_at};
ghost use Rattle.fields.specs.Along.{segment_front, age_front};

use crate::layout::{PER_AGE, PER_SEGMENT};
use crate::parts::Part;

// A bend has its angle in place of a rise. A code is a number still, so that the kind is one.
#[derive(Clone, Copy)]
pub struct Segment {
    pub kind: u64,
    pub length: u64,
    pub rise: u64,
}

#[derive(Clone, Copy)]
pub struct Age {
    pub hour: u64,
    pub moment: u64,
}

impl Part for Segment {
    ghost FIELDS = { per_segment };

    const FIELDS: usize = PER_SEGMENT;

    ghost part_at = { segment_at };

    fn at(fields: &[u64]) -> Segment {
        Segment {
            kind: fields[0],
            length: fields[1],
            rise: fields[2],
        }
    }

    ghost some_fields = { Prim.search rules };

    ghost front = { segment_front };
}

impl Part for Age {
    ghost FIELDS = { per_age };

    const FIELDS: usize = PER_AGE;

    ghost part_at = { age_at };

    fn at(fields: &[u64]) -> Age {
        Age {
            hour: fields[0],
            moment: fields[1],
        }
    }

    ghost some_fields = { Prim.search rules };

    ghost front = { age_front };
}
