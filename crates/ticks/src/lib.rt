// Numbers at the edge of the core: doubles in, by their bits, as ticks or as whole numbers; ticks out, as the exact double.
#![tactic(auto)]

ghost use Rattle.std.specs.Prelude.{◌≡◌, false, ◌≤◌};
ghost use Rattle.std.specs.Float.Ieee.{to_bits};
ghost use Rattle.std.specs.Float.{binary64};
ghost use Rattle.std.specs.Float.Ieee.Exact.{HasValue};
ghost use Rattle.ticks.specs.Doubles.{ticks_of, whole_of};
ghost use Rattle.ticks.specs.Ticks.{ticks_per_unit};
ghost use Rattle.ticks.specs.Decoder.{bits_of, decoded_of, tick_doublings};

// A double after some doublings: cut to a whole number, and whether nothing was cut off. It is no Option, since ticks take the whole number
// either way.
#[derive(Clone, Copy)]
pub struct Cut {
    pub quotient: u64,
    pub exact: bool,
}

// The bits of -0.0: the sign alone.
pub const MINUS_ZERO: u64 = 1 << 63;
// The least exponent above 0, and the leading digit of a significand.
const LEADING: u64 = 1 << FRACTION_DIGITS;
// The exponent of 2^31.
const TOO_LARGE: u64 = 1054;
// A double of exponent e is its significand times 2^(e - BIAS).
const BIAS: u64 = 1075;
// The digits of a fraction.
const FRACTION_DIGITS: u64 = 52;

pub const TICKS_PER_UNIT: u64 = 1024;

pub const T: u64 = 1 << 24;

// A unit is 2^10 ticks.
const TICK_DOUBLINGS: u64 = 10;

const TICK: f64 = 1.0 / TICKS_PER_UNIT as f64;

// The one decoder; of a double that is refused, nothing. The significand has 53 digits, so that a cut of more leaves 0.
#[tactic(auto, using(crate::proofs::Bits::ways_out))]
fn decode(bits: u64, doublings: u64) -> Option<Cut>
    requires { doublings ≤ tick_doublings }
    ensures { result ≡ decoded_of bits doublings }
{
    if bits == MINUS_ZERO {
        return Some(Cut {
            quotient: 0,
            exact: true,
        });
    }
    // A set sign stands above the exponent, so that it too makes this too large.
    let exponent = bits / LEADING;
    if TOO_LARGE <= exponent {
        return None;
    }
    let cut = BIAS - doublings - exponent;
    if FRACTION_DIGITS < cut {
        return Some(Cut {
            quotient: 0,
            exact: bits == 0,
        });
    }
    let unit = 1u64 << cut;
    let significand = LEADING + bits % LEADING;
    Some(Cut {
        quotient: significand / unit,
        exact: significand % unit == 0,
    })
}

// The largest whole number of ticks not above the double with these bits.
#[tactic(auto, unfolding(crate::specs::Decoder::decoded_of, crate::specs::Doubles::ticks_of))]
pub fn ticks_of_bits(bits: u64) -> Option<u64>
    ensures { result ≡ ticks_of bits }
{
    decode(bits, TICK_DOUBLINGS).map(|cut| cut.quotient)
}

// The double with these bits, where it is a whole number.
#[tactic(auto, unfolding(crate::specs::Decoder::decoded_of, crate::specs::Doubles::whole_of))]
pub fn whole_of_bits(bits: u64) -> Option<u64>
    ensures { result ≡ whole_of bits }
{
    decode(bits, 0)
        .filter(|cut| cut.exact)
        .map(|cut| cut.quotient)
}

// The bits of a double; None of a NaN, which has no bits of its own in the model of floats.
pub fn bits_of(x: f64) -> Option<u64>
    ensures { result ≡ bits_of x }
{
    (!x.is_nan()).then(|| x.to_bits())
}

#[tactic(auto, using(crate::proofs::Laws::nan_ticks))]
pub fn ticks_of_double(x: f64) -> Option<u64>
    ensures { result ≡ ticks_of (to_bits binary64 x) }
{
    bits_of(x).and_then(ticks_of_bits)
}

#[tactic(auto, using(crate::proofs::Laws::nan_whole))]
pub fn whole_of_double(x: f64) -> Option<u64>
    ensures { result ≡ whole_of (to_bits binary64 x) }
{
    bits_of(x).and_then(whole_of_bits)
}

// The double that is exactly this many ticks. 2^-10 is a power of two, so the product is not rounded.
pub fn double_of_ticks(ticks: u32) -> f64
    ensures { HasValue result false ticks ticks_per_unit }
{
    f64::from(ticks) * TICK
}
