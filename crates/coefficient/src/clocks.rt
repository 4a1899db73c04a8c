// The three clocks. Document 01 names this form: "three tuple structs for hours since transfer, end of curing and tensioning", of one shape
// and yet of three types, so that "a reading of one never enters another's table".
ghost use Rattle.std.specs.Prelude.{◌≡◌, ◌-◌};
ghost use Rattle.coefficient.specs.Coefficients.{since_transfer, since_curing, since_tensioning};

use crate::codes::Kind;

// Creep's clock.
#[derive(Clone, Copy)]
pub struct HoursSinceTransfer(pub u32);

// Shrinkage's clock.
#[derive(Clone, Copy)]
pub struct HoursSinceCuring(pub u32);

// Relaxation's clock.
#[derive(Clone, Copy)]
pub struct HoursSinceTensioning(pub u32);

// What starts a member's clocks.
#[derive(Clone, Copy)]
pub struct MemberHours {
    pub kind: Kind,
    pub end_of_curing: u32,
    pub transfer: u32,
}

// The last hour of a member, after 50 years.
pub const SERVICE_LIFE: u32 = 438_000;

impl MemberHours {
    pub fn since_transfer(self, hour: u32) -> HoursSinceTransfer
        ensures { result ≡ since_transfer self hour }
    {
        HoursSinceTransfer(hour.saturating_sub(self.transfer))
    }

    pub fn since_curing(self, hour: u32) -> HoursSinceCuring
        ensures { result ≡ since_curing self hour }
    {
        HoursSinceCuring(hour.saturating_sub(self.end_of_curing))
    }

    pub fn since_tensioning(self, hour: u32) -> HoursSinceTensioning
        ensures { result ≡ since_tensioning self hour }
    {
        let tensioning = match self.kind {
            Kind::Pretensioned => 0,
            Kind::PostTensioned => self.transfer,
        };
        HoursSinceTensioning(hour.saturating_sub(tensioning).max(1))
    }
}
