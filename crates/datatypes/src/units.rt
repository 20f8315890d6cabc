// The small enumerations of the source. `place` is the number that the sheets and the host have for a case, from 0 in declaration order; `at`
// gives the case at a place.
ghost use Rattle.std.specs.Prelude.{◌≡◌};
ghost use Rattle.datatypes.specs.Places.{time_place, interval_place, union_place};
ghost use Rattle.datatypes.specs.At.{first_at, time_units, interval_units, union_modes};

// The unit of Timestamp, Time32, Time64 and Duration.
#[derive(Drop)]
pub enum TimeUnit {
    Second,
    Millisecond,
    Microsecond,
    Nanosecond,
}

impl TimeUnit {
    pub fn place(self) -> u64
        ensures { result ≡ time_place self }
    {
        self as u64
    }

    pub fn at(place: u64) -> Option<TimeUnit>
        ensures { result ≡ first_at time_place place time_units }
    {
        match place {
            0 => Some(TimeUnit::Second),
            1 => Some(TimeUnit::Millisecond),
            2 => Some(TimeUnit::Microsecond),
            3 => Some(TimeUnit::Nanosecond),
            _ => None,
        }
    }
}

// The unit of Interval.
#[derive(Drop)]
pub enum IntervalUnit {
    YearMonth,
    DayTime,
    MonthDayNano,
    MonthDayMillis,
}

impl IntervalUnit {
    pub fn place(self) -> u64
        ensures { result ≡ interval_place self }
    {
        self as u64
    }

    pub fn at(place: u64) -> Option<IntervalUnit>
        ensures { result ≡ first_at interval_place place interval_units }
    {
        match place {
            0 => Some(IntervalUnit::YearMonth),
            1 => Some(IntervalUnit::DayTime),
            2 => Some(IntervalUnit::MonthDayNano),
            3 => Some(IntervalUnit::MonthDayMillis),
            _ => None,
        }
    }
}

// The mode of Union.
#[derive(Drop)]
pub enum UnionMode {
    Dense,
    Sparse,
}

impl UnionMode {
    pub fn place(self) -> u64
        ensures { result ≡ union_place self }
    {
        self as u64
    }

    pub fn at(place: u64) -> Option<UnionMode>
        ensures { result ≡ first_at union_place place union_modes }
    {
        match place {
            0 => Some(UnionMode::Dense),
            1 => Some(UnionMode::Sparse),
            _ => None,
        }
    }
}
