// What the codes stand for, once they are listed. A TryFrom would be no plainer: no code comes here that row "codes" refuses, so that its
// error could not be met, and its caller would have to prove so. Nor would a trait over the four: each would still say its two names.
ghost use Rattle.std.specs.Prelude.{◌≡◌};
ghost use Rattle.member.specs.Member.{kind_of, steel_of, cure_of, concrete_of};

use coefficient::codes::{Concrete, Cure, Kind, Steel};
use fields::places;

pub fn kind_of(code: u64) -> Kind
    ensures { result ≡ kind_of code }
{
    match code {
        places::PRETENSIONED => Kind::Pretensioned,
        _ => Kind::PostTensioned,
    }
}

pub fn steel_of(code: u64) -> Steel
    ensures { result ≡ steel_of code }
{
    match code {
        places::STRESS_RELIEVED => Steel::StressRelieved,
        _ => Steel::LowRelaxation,
    }
}

pub fn cure_of(code: u64) -> Cure
    ensures { result ≡ cure_of code }
{
    match code {
        places::MOIST => Cure::Moist,
        _ => Cure::Accelerated,
    }
}

pub fn concrete_of(code: u64) -> Concrete
    ensures { result ≡ concrete_of code }
{
    match code {
        places::NORMAL => Concrete::Normal,
        _ => Concrete::Lightweight,
    }
}
