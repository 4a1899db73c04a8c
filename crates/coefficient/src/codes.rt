// The codes of a card that decide a coefficient or a clock.

#[derive(Clone, Copy, Debug, PartialEq, Eq)]
pub enum Kind {
    Pretensioned,
    PostTensioned,
}

#[derive(Clone, Copy, Debug, PartialEq, Eq)]
pub enum Cure {
    Moist,
    Accelerated,
}

#[derive(Clone, Copy, Debug, PartialEq, Eq)]
pub enum Concrete {
    Normal,
    Lightweight,
}

#[derive(Clone, Copy, Debug, PartialEq, Eq)]
pub enum Steel {
    StressRelieved,
    LowRelaxation,
}
