// Numbers in a host's bytes.
#![tactic(auto)]

ghost use Rattle.std.specs.Prelude.{◌≡◌, map, min, ◌≤◌, length};
ghost use Rattle.fields.specs.Outcomes.{over};
ghost use Rattle.list.specs.Lists.{list_outcome};
ghost use Rattle.numbers.specs.Numbers.{room, written, numbers_from, doubles_of, bytes_outcome};
ghost use Rattle.numbers.specs.Laws.{bytes_accepted};
ghost use Rattle.numbers.specs.ReadDoubles.{double_with, stands_for, most_doubles};
ghost use Rattle.numbers.specs.Conditions.{NumbersFit};

use fields::limits::MOST_FIELDS;
use fields::read::{Counts, Reader};
use fields::refusal::Refusal;
use ticks::MINUS_ZERO;

const BYTES_PER_NUMBER: usize = 8;

// One more than the most fields.
const MOST_DOUBLES: usize = MOST_FIELDS + 1;

// The bits of infinity; a NaN's are above them, but for the sign.
const INFINITY_BITS: u64 = 0x7FF0_0000_0000_0000;

// How many numbers so many bytes hold, up to the most that are asked for.
pub fn room_up_to(most: usize, bytes: usize) -> usize
    ensures { result ≡ min (room bytes) most }
{
    (bytes / BYTES_PER_NUMBER).min(most)
}

// Some numbers' bytes at the front of a buffer.
pub fn write_numbers(numbers: &[u64], buffer: &mut [u8])
    requires { NumbersFit (length buffer.old) (length numbers.now) }
    ensures { buffer.new ≡ written numbers.now buffer.old }
{
    // Cut by place: after a loop over `buffer.chunks_exact_mut(BYTES_PER_NUMBER)` a proof knows the buffer's length, and no byte of it.
    for (done, number) in numbers.iter().enumerate() {
        let at = BYTES_PER_NUMBER * done;
        buffer[at..at + BYTES_PER_NUMBER].copy_from_slice(&number.to_le_bytes());
    }
}

// The double with these bits; None for a NaN's, since a NaN has no bits of its own in the model of floats.
#[tactic(auto, using(crate::proofs::Doubles::above, crate::proofs::Doubles::below))]
pub fn double_of(bits: u64) -> Option<f64>
    ensures { result ≡ double_with bits }
{
    if INFINITY_BITS < bits % MINUS_ZERO {
        return None;
    }
    Some(f64::from_bits(bits))
}

// The doubles that the first bytes of a list hold. Infinity stands for a NaN: every reading refuses both.
fn read_doubles(list: &[u8], doubles: &mut [f64])
    requires { NumbersFit (length list.now) (length doubles.old) }
    ensures { doubles.new ≡ map stands_for (numbers_from (length doubles.old) list.now) }
{
    let (numbers, _) = list.as_chunks::<BYTES_PER_NUMBER>();
    // By `enumerate`: of `doubles.iter_mut().zip(numbers)` a proof knows nothing of what was written.
    for (read, double) in doubles.iter_mut().enumerate() {
        *double = double_of(u64::from_le_bytes(numbers[read])).unwrap_or(f64::INFINITY);
    }
}

// Reads the doubles of a list by way of `doubles`, which has room for one more than the most fields: a list of more has a wrong
// length, and so have its first doubles.
fn read_by(
    list: &[u8],
    doubles: &mut [f64],
    fields: &mut [u64; MOST_FIELDS],
) -> Result<Counts, Refusal>
    requires { length doubles.old ≡ most_doubles }
    ensures value { result ≡ (list_outcome (doubles_of list.now)).reading }
    ensures fields_after { fields.new ≡ over (list_outcome (doubles_of list.now)).numbers fields.old }
{
    let count = room_up_to(MOST_DOUBLES, list.len());
    read_doubles(list, &mut doubles[..count]);
    list::read_list(&doubles[..count], fields)
}

// Lists of doubles in a host's bytes, as the core reads them.
pub struct ListBytes;

impl Reader for ListBytes {
    type Item = u8;

    ghost outcome = { bytes_outcome };

    #[tactic(auto, unfolding(crate::specs::Numbers::bytes_outcome))]
    fn read(list: &[u8], numbers: &mut [u64; MOST_FIELDS]) -> Result<Counts, Refusal> {
        if list.len() % BYTES_PER_NUMBER != 0 {
            return Err(Refusal::Shape(0));
        }
        let mut doubles = [0.0f64; MOST_DOUBLES];
        read_by(list, &mut doubles, numbers)
    }

    ghost accepted = { bytes_accepted };
}

// Reads a list from its bytes: its numbers go to the front of `fields`, all of them or those before the first field that is refused.
pub fn read_list_bytes(list: &[u8], fields: &mut [u64; MOST_FIELDS]) -> Result<Counts, Refusal>
    ensures value { result ≡ (bytes_outcome list.now).reading }
    ensures fields_after { fields.new ≡ over (bytes_outcome list.now).numbers fields.old }
{
    ListBytes::read(list, fields)
}
