// A member whose quantities are so bounded that no product of a stage wraps, as every accepted member's are.
ghost use Rattle.stages.specs.Conditions.{Bounded};

use member::Member;

#[derive(Clone, Copy)]
pub struct BoundedMember {
    pub member: Member,
    pub ghost bounded: { Bounded member },
}
