// The symbols of the functions of `abi::licence_exports`.
ghost use Rattle.std.specs.Prelude.{cond, ◌≡◌};
ghost use Rattle.licence.specs.Licence.{open_on_refusal, open_on, days_left_refusal, days_left, renew_refusal, renew_buffer};

// Whether a book licensed from a first to a last day is open on a day.
#[unsafe(no_mangle)]
pub extern "C" fn bt_open_on(first: &[u8], last: &[u8], today: &[u8], is_open: &mut u32) -> u32
    ensures value { result ≡ open_on_refusal first.now last.now today.now }
    ensures is_open_after { is_open.new ≡ cond (open_on first.now last.now today.now) 1 0 }
{
    abi::licence_exports::bt_open_on(first, last, today, is_open)
}

// The days from today to a last day, negative after it.
#[unsafe(no_mangle)]
pub extern "C" fn bt_days_left(last: &[u8], today: &[u8], days: &mut i32) -> u32
    ensures value { result ≡ days_left_refusal last.now today.now }
    ensures days_after { days.new ≡ days_left last.now today.now }
{
    abi::licence_exports::bt_days_left(last, today, days)
}

// Moves a day by one year, 29 February to 28 February.
#[unsafe(no_mangle)]
pub extern "C" fn bt_renew(day: &mut [u8]) -> u32
    ensures value { result ≡ renew_refusal day.old }
    ensures day_after { day.new ≡ renew_buffer day.old }
{
    abi::licence_exports::bt_renew(day)
}
