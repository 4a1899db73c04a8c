// The readings of document 01 that no theorem lists: logarithms around the powers of ten, shares, clocks at their ends, the
// factors of volume/surface and of the age at transfer, and whole creep and shrinkage where their limits begin.
ghost use Rattle.std.specs.Prelude.{◌<◌};
ghost use Rattle.logarithm.specs.Logarithm.{service_life};

use crate::print::{print_numbers, print_title};
use crate::shares;
use crate::shares::DAY;
use coefficient::clocks::{MemberHours, SERVICE_LIFE};
use coefficient::codes::{Concrete, Cure, Kind};

// In ticks.
const INCH: u32 = 1024;

// Around each power of ten, and at the end of the service life.
const LOGARITHM_HOURS: [u32; 17] = [
    1,
    9,
    10,
    11,
    99,
    100,
    101,
    999,
    1000,
    1001,
    9999,
    10_000,
    10_001,
    99_999,
    100_000,
    100_001,
    SERVICE_LIFE,
];

fn print_logarithms(rt: &impl Print) {
    print_title(rt, "hour, logarithm");
    for hour in LOGARITHM_HOURS {
        print_numbers(rt, &[u64::from(hour), logarithm::reading(hour)]);
    }
}

fn print_clocks_at(rt: &impl Print, member: MemberHours, hour: u32) {
    let since_transfer = member.since_transfer(hour);
    let since_curing = member.since_curing(hour);
    let since_tensioning = member.since_tensioning(hour);
    print_numbers(
        rt,
        &[
            u64::from(hour),
            u64::from(since_transfer.0),
            u64::from(since_curing.0),
            u64::from(since_tensioning.0),
        ],
    );
}

// At the transfer, an hour after it and at the end of the service life.
fn print_clocks_of(rt: &impl Print, title: &str, member: MemberHours)
    requires { member.transfer < service_life }
{
    print_title(rt, title);
    for hour in [member.transfer, member.transfer + 1, SERVICE_LIFE] {
        print_clocks_at(rt, member, hour);
    }
}

fn print_clocks(rt: &impl Print) {
    let pretensioned = MemberHours {
        kind: Kind::Pretensioned,
        end_of_curing: 18,
        transfer: 18,
    };
    let post_tensioned = MemberHours {
        kind: Kind::PostTensioned,
        end_of_curing: 3 * DAY,
        transfer: 4 * DAY,
    };
    print_clocks_of(
        rt,
        "pretensioned: hour, hours since transfer, end of curing, tensioning",
        pretensioned,
    );
    print_clocks_of(
        rt,
        "post-tensioned: hour, hours since transfer, end of curing, tensioning",
        post_tensioned,
    );
}

// From 1 to 7 inches by halves.
fn print_size_factors(rt: &impl Print) {
    print_title(rt, "volume/surface, SCF, SSF");
    for halves in 2..=14u32 {
        let volume_to_surface = halves * (INCH / 2);
        print_numbers(
            rt,
            &[
                u64::from(volume_to_surface),
                coefficient::scf_of(volume_to_surface),
                coefficient::ssf_of(volume_to_surface),
            ],
        );
    }
}

// At each row and half way to the next.
const TRANSFERS: [u32; 13] = [
    3 * DAY,
    4 * DAY,
    5 * DAY,
    6 * DAY,
    7 * DAY,
    8 * DAY + DAY / 2,
    10 * DAY,
    15 * DAY,
    20 * DAY,
    25 * DAY,
    30 * DAY,
    35 * DAY,
    40 * DAY,
];

fn print_age_factors(rt: &impl Print) {
    print_title(rt, "transfer, MCF if moist, MCF if accelerated");
    for transfer in TRANSFERS {
        print_numbers(
            rt,
            &[
                u64::from(transfer),
                coefficient::mcf_of(Cure::Moist, transfer),
                coefficient::mcf_of(Cure::Accelerated, transfer),
            ],
        );
    }
}

fn print_whole_losses_at(rt: &impl Print, ec: u32) {
    print_numbers(
        rt,
        &[
            u64::from(ec),
            coefficient::ucr_of(Cure::Moist, Concrete::Normal, ec),
            coefficient::ucr_of(Cure::Moist, Concrete::Lightweight, ec),
            coefficient::ucr_of(Cure::Accelerated, Concrete::Normal, ec),
            coefficient::ush_of(Concrete::Normal, ec),
            coefficient::ush_of(Concrete::Lightweight, ec),
        ],
    );
}

// The ends of Ec's range, and where each of the five meets its limit.
const MODULI: [u32; 7] = [
    1_000_000, 2_600_000, 2_900_000, 3_250_000, 4_200_000, 5_000_000, 8_000_000,
];

fn print_whole_losses(rt: &impl Print) {
    print_title(
        rt,
        "Ec, UCR moist normal, moist lightweight, accelerated, USH normal, lightweight",
    );
    for ec in MODULI {
        print_whole_losses_at(rt, ec);
    }
}

pub(crate) fn print_readings(rt: &impl Print) {
    print_logarithms(rt);
    shares::print_creep_shares(rt);
    shares::print_shrinkage_shares(rt);
    print_clocks(rt);
    print_size_factors(rt);
    print_age_factors(rt);
    print_whole_losses(rt);
}
