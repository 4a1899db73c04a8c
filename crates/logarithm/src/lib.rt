// The logarithm of an hour, by a table of thresholds.
#![tactic(auto)]

ghost use Rattle.std.specs.Prelude.{◌≡◌};
ghost use Rattle.logarithm.specs.Logarithm.{logarithm};
ghost use Rattle.logarithm.specs.Table.{IsTable};

mod table;

// One more than the last k of the table.
pub const ENTRIES: usize = 1537;

// The smallest hour that reaches each k.
pub fn thresholds() -> &'static [u32; ENTRIES]
    ensures { IsTable result.now }
{
    &table::THRESHOLDS
}

// The largest k with 10^k ≤ h^256.
pub fn reading(hour: u32) -> u64
    ensures { result ≡ logarithm hour }
{
    let beyond = thresholds().partition_point(|threshold| *threshold <= hour);
    beyond.saturating_sub(1) as u64
}
