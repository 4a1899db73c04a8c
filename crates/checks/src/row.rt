// A row of the table of refusals: its checks in the order of their fields, of which the first that fails gives the place.
ghost use Rattle.std.specs.Prelude.{◌≡◌, [], ◌∷◌, ◌+◌, ◌<◌, get_or};
ghost use Rattle.fields.specs.Sizes.{most_fields};
ghost use Rattle.fields.specs.Limits.{within};
ghost use Rattle.checks.specs.Rows.{checked, at};
ghost use Rattle.checks.specs.Ranged.{Elements, ranges_held};

use fields::limits::MOST_FIELDS;

// A single check: its place, where it fails.
#[tactic(auto, unfolding(crate::specs::Rows::checked))]
pub fn check(holds: bool, place: u64) -> Result<(), u64>
    ensures { result ≡ checked (at place holds ∷ []) }
{
    if holds { Ok(()) } else { Err(place) }
}

// The check of an element, whose place is the number of its field: field k is element k - 1.
pub fn field(holds: bool, element: usize) -> Result<(), u64>
    requires { element < most_fields }
    ensures { result ≡ checked (at (element + 1) holds ∷ []) }
{
    check(holds, element as u64 + 1)
}

// The same, of whether the field lies in low..high.
pub fn ranged(numbers: &[u64; MOST_FIELDS], element: usize, low: u64, high: u64) -> Result<(), u64>
    requires { element < most_fields }
    ensures { result ≡ checked (at (element + 1) (within low high (get_or numbers.now element 0)) ∷ []) }
{
    field((low..=high).contains(&numbers[element]), element)
}

// The same of some fields in turn, each with the ends of its range.
#[tactic(auto, using(crate::proofs::Ranged::ranges_along))]
pub fn all_ranged(numbers: &[u64; MOST_FIELDS], ranges: &[(usize, u64, u64)]) -> Result<(), u64>
    requires { Elements ranges.now }
    ensures { result ≡ checked (ranges_held numbers.now ranges.now) }
{
    for &(element, low, high) in ranges {
        ranged(numbers, element, low, high)?;
    }
    Ok(())
}
