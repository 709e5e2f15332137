//! The start time.
ghost use Rattle.std.specs.Prelude.{◌≡◌, ◌<◌, ◌+◌, ◌==◌, length, ◌≤◌, IfSome};
ghost use Rattle.std.specs.List.{list_all, zip};
ghost use Rattle.settings_read.specs.Start.{is_digit, two, fits, has_form, day_of, clock_of, second_of_text};

use jiff::civil::Date;

fn is_digit(b: u8) -> bool
    ensures { result ≡ is_digit b }
{
    48 <= b && b <= 57
}

fn two(text: &[u8], at: usize) -> u32
    requires { at + 1 < length text.now }
    ensures value { result ≡ two text.now at }
    ensures short { result ≤ 3000 }
{
    u32::from(text[at].saturating_sub(48)) * 10 + u32::from(text[at + 1].saturating_sub(48))
}

fn fits(form: u8, b: u8) -> bool
    ensures { result ≡ fits (form, b) }
{
    if form == 48 { is_digit(b) } else { form == b }
}

fn all_fit(form: &[u8], text: &[u8]) -> bool
    ensures { result ≡ list_all fits (zip form.now text.now) }
{
    form.iter().zip(text).all(|(form, b)| fits(*form, *b))
}

fn has_form(text: &[u8]) -> bool
    ensures { result ≡ has_form text.now }
{
    let fit = all_fit(b"0000-00-00T00:00:00Z".as_slice(), text);
    text.len() == 20 && fit
}

fn day_of(year: u32, month: u32, day: u32) -> Option<u32>
    ensures value { result ≡ day_of year month day }
    ensures bound { IfSome result (λ n. n ≤ 47481) }
{
    if year < 1970 || 2099 < year || 12 < month || 31 < day {
        return None;
    }
    match Date::new(year as i16, month as i8, day as i8) {
        Ok(date) => Some(date.to_plain().to_unix_epoch_day() as u32),
        Err(_) => None,
    }
}

fn clock_of(hour: u32, minute: u32, second: u32) -> Option<u32>
    ensures value { result ≡ clock_of hour minute second }
    ensures bound { IfSome result (λ n. n < 86400) }
{
    if hour <= 23 && minute <= 59 && second <= 59 {
        Some(hour * 3600 + minute * 60 + second)
    } else {
        None
    }
}

/// The second since 1970 that the text names.
#[tactic(auto, unfolding(crate::specs::Start::second_of_text))]
pub(crate) fn second_of_text(text: &[u8]) -> Option<u32>
    ensures value { result ≡ second_of_text text.now }
    ensures bound { IfSome result (λ n. n ≤ 4102444799) }
{
    if !has_form(text) {
        return None;
    }
    let day = day_of(
        two(text, 0) * 100 + two(text, 2),
        two(text, 5),
        two(text, 8),
    )?;
    let second = clock_of(two(text, 11), two(text, 14), two(text, 17))?;
    Some(day * 86400 + second)
}
