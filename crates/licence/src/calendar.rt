// The Gregorian calendar, years 2000 to 2099.
ghost use Rattle.std.specs.Prelude.{◌≡◌, ◌≤◌, ◌<◌};
ghost use Rattle.licence.specs.Licence.{leap, month_length, is_date, before_month, day_number, renewed};
ghost use Rattle.licence.specs.CalendarDays.{DateFacts};

// The lengths of the months of a year without a 29 February, and the days before each month.
const LENGTHS: [u32; 12] = [31, 28, 31, 30, 31, 30, 31, 31, 30, 31, 30, 31];

const BEFORE: [u32; 12] = [0, 31, 59, 90, 120, 151, 181, 212, 243, 273, 304, 334];

// A day: the year, the month from 1 to 12, the day of the month.
#[derive(Clone, Copy)]
pub struct Date {
    pub year: u32,
    pub month: u32,
    pub day: u32,
}

// Whether a year has a 29 February.
fn is_leap(year: u32) -> bool
    ensures { result ≡ leap year }
{
    year % 4 == 0 && (year % 100 != 0 || year % 400 == 0)
}

// The days of a month.
fn month_length(year: u32, month: u32) -> u32
    requires { (1 ≤ month) × (month ≤ 12) }
    ensures { result ≡ month_length year month }
{
    if month == 2 {
        if is_leap(year) {
            return 29;
        }
        return 28;
    }
    LENGTHS[(month - 1) as usize]
}

// Whether it is a date of the years 2000 to 2099.
pub fn is_date(d: Date) -> bool
    ensures { result ≡ is_date d }
{
    (2000..=2099).contains(&d.year)
        && (1..=12).contains(&d.month)
        && (1..=month_length(d.year, d.month)).contains(&d.day)
}

// The days of a year before a month.
fn before_month(year: u32, month: u32) -> u32
    requires { (1 ≤ month) × (month ≤ 12) }
    ensures { (result ≡ before_month year month) × (result ≤ 335) }
{
    let days = BEFORE[(month - 1) as usize];
    if month <= 2 {
        return days;
    }
    if is_leap(year) {
        return days + 1;
    }
    days
}

// The number of a date: the days from 1 January 2000 up to it.
pub fn number(d: Date) -> u32
    requires { DateFacts d }
    ensures { (result ≡ day_number d) × (result ≤ 36525) }
{
    let years = d.year - 2000;
    365 * years + (years + 3) / 4 + before_month(d.year, d.month) + (d.day - 1)
}

// The same day one year later; 28 February for a 29 February.
pub fn renewal(d: Date) -> Date
    requires { d.year < 2099 }
    ensures { result ≡ renewed d }
{
    let year = d.year + 1;
    if d.month == 2 {
        if d.day == 29 {
            return Date {
                year,
                month: d.month,
                day: 28,
            };
        }
    }
    Date {
        year,
        month: d.month,
        day: d.day,
    }
}
