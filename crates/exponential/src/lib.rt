// The factor e to the power -X/T that friction leaves of a stress, in units of 1/T: Horner's rule on the series up to the 15th power.
#![tactic(auto)]

ghost use Rattle.std.specs.Prelude.{◌≡◌, ◌≤◌};
ghost use Rattle.fields.specs.Limits.{most_friction};
ghost use Rattle.exponential.specs.Factor.{factor as factor_of};

use ticks::T;

const POWERS: u64 = 15;

pub fn factor(x: u64) -> u64
    requires { x ≤ most_friction }
    ensures { result ≡ factor_of x }
{
    let mut h = T;
    for k in (1..=POWERS).rev() {
        h = T - h * x / (k * T);
    }
    h
}
