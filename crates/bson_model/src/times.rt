//! Dates and timestamps.
ghost use Rattle.std.specs.Prelude.{◌≡◌};
ghost use Rattle.bson_model.specs.Scalars.{millis_of_date_time};

/// A time in milliseconds since the start of 1970 in UTC (BSON 1.1, UTC datetime).
/// ```
/// assert_eq!(rt; DateTime::from_millis(-1).timestamp_millis(), -1);
/// ```
#[derive(Clone, Copy, Debug, PartialEq, Eq)]
pub struct DateTime {
    millis: i64,
}

impl DateTime {
    /// The time of this many milliseconds.
    pub fn from_millis(millis: i64) -> DateTime
        ensures { millis_of_date_time result ≡ millis }
    {
        DateTime { millis }
    }

    /// Its milliseconds.
    pub fn timestamp_millis(self) -> i64
        ensures { result ≡ millis_of_date_time self }
    {
        self.millis
    }
}

/// A time in seconds and a counter within it, for internal use of databases (BSON 1.1, Timestamp).
/// ```
/// let stamp = Timestamp { time: 5, increment: 1 };
/// assert_eq!(rt; RawBsonRef::from(stamp).as_timestamp(), Some(stamp));
/// ```
#[derive(Clone, Copy, Debug, PartialEq, Eq)]
pub struct Timestamp {
    /// Seconds since the start of 1970.
    pub time: u32,
    /// The number among the operations of that second.
    pub increment: u32,
}
