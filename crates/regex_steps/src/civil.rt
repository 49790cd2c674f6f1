// A day of the calendar and a time of it.
ghost use Rattle.std.specs.Prelude.{◌≡◌, ◌&&◌, pos, Some, None, IfSome, if◌then◌else◌};
ghost use Rattle.regex_steps.specs.Dates.{code, digit_count, letters, same, value, default, with_value, is_day, is_time, milliseconds};
ghost use Rattle.jiff_core.specs.Calendar.{IsEpochDay, days_from_civil};

use jiff_core::civil::Date;

/// A field of a date and time.
#[derive(Clone, Copy)]
pub enum Field {
    Year,
    Month,
    Day,
    Hour,
    Minute,
    Second,
    Millisecond,
}

impl Field {
    fn code(self) -> u8
        ensures { result ≡ code self }
    {
        match self {
            Field::Year => 0,
            Field::Month => 1,
            Field::Day => 2,
            Field::Hour => 3,
            Field::Minute => 4,
            Field::Second => 5,
            Field::Millisecond => 6,
        }
    }

    /// Whether it is this field.
    pub fn is(self, other: Field) -> bool
        ensures { result ≡ same self other }
    {
        self.code() == other.code()
    }

    /// How a pattern has it, with a letter for each of its digits.
    pub fn letters(self) -> &'static [u8]
        ensures { result.now ≡ letters self }
    {
        match self {
            Field::Year => b"yyyy",
            Field::Month => b"MM",
            Field::Day => b"dd",
            Field::Hour => b"HH",
            Field::Minute => b"mm",
            Field::Second => b"ss",
            Field::Millisecond => b"SSS",
        }
    }

    /// How many digits it stands for.
    pub fn digit_count(self) -> usize
        ensures { result ≡ digit_count self }
    {
        self.letters().len()
    }
}

/// A date and time, by its fields.
#[derive(Clone, Copy)]
pub struct CivilTime {
    pub year: u16,
    pub month: u16,
    pub day: u16,
    pub hour: u16,
    pub minute: u16,
    pub second: u16,
    pub millisecond: u16,
}

impl CivilTime {
    /// What a date has where a pattern leaves fields out: the first moment of 1970.
    pub const DEFAULT: CivilTime = CivilTime {
        year: 1970,
        month: 1,
        day: 1,
        hour: 0,
        minute: 0,
        second: 0,
        millisecond: 0,
    };

    /// Sets a field to a number.
    pub fn set(&mut self, field: Field, number: u16)
        ensures { self.new ≡ with_value self.old field number }
    {
        match field {
            Field::Year => self.year = number,
            Field::Month => self.month = number,
            Field::Day => self.day = number,
            Field::Hour => self.hour = number,
            Field::Minute => self.minute = number,
            Field::Second => self.second = number,
            Field::Millisecond => self.millisecond = number,
        }
    }

    // The days since 1970, where the calendar has the day.
    fn epoch_day(self) -> Option<i32>
        ensures bound { IfSome result IsEpochDay }
        ensures value { result ≡ (if is_day self then Some
            (days_from_civil (pos self.year) self.month self.day) else None) }
    {
        if self.year > 9999 || self.month > 12 || self.day > 31 {
            return None;
        }
        match Date::new(self.year as i16, self.month as i8, self.day as i8) {
            Ok(date) => Some(date.to_unix_epoch_day()),
            Err(_) => None,
        }
    }

    /// The milliseconds since 1970 in UTC, where the calendar has this day, and the day this time.
    pub fn milliseconds(self) -> Option<i64>
        ensures { result ≡ (if is_day self && is_time self then Some (milliseconds self) else
            None) }
    {
        if self.hour > 23 || self.minute > 59 || self.second > 59 {
            return None;
        }
        let Some(day) = self.epoch_day() else {
            return None;
        };
        let of_day = self.hour as u32 * 3_600_000
            + self.minute as u32 * 60_000
            + self.second as u32 * 1000
            + self.millisecond as u32;
        Some(day as i64 * 86_400_000 + of_day as i64)
    }
}
