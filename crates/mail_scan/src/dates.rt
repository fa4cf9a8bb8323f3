// A date as mail has it. Each function reads one part from the front of a text, and gives it with the rest.
ghost use Rattle.std.specs.Prelude.{◌≡◌, ◌<◌, ◌≤◌, length, pos, neg_ℤ, ◌≤ℤ◌, IfSome};
ghost use Rattle.std.specs.List.{prefix_len};
ghost use Rattle.mail_scan.specs.DateGrammar.{part_of, rest_of, is_blank, behind_blanks, behind_gap, one_digit, two_digits, four_digits, behind_day_name, day_of_month, three_letters, month_of, day_number, civil_day, behind_colon, second_of, clock_of, zone_shift, behind_ut, behind_gmt, sign_of, shifted_zone, zone_of, time_of, is_done, date_seconds_of};

use jiff_core::civil::Date;

const MONTHS: [[u8; 3]; 12] = [
    *b"jan", *b"feb", *b"mar", *b"apr", *b"may", *b"jun", *b"jul", *b"aug", *b"sep", *b"oct",
    *b"nov", *b"dec",
];

const SECONDS_A_DAY: i64 = 86_400;

/// The seconds since 1970 in UTC of a date as `Mon, 1 Jan 2024 01:00:00 +0100`, where they are 0 to 4,294,967,295;
/// else None, and also where the text begins with no such date.
///
/// The name of the day and the seconds may be absent, the zone may be `GMT` or `UT`, and behind white space anything may
/// follow. The name of the day is not compared with the date, and a second 60 counts as 59. `docs/formats.md` has the
/// grammar.
#[tactic(auto, unfolding(crate::specs::DateGrammar::date_seconds_of))]
pub fn date_seconds(text: &[u8]) -> Option<u32>
    ensures { result ≡ date_seconds_of text.now }
{
    let (day, text) = read_civil_day(text)?;
    let (time, text) = read_time(skip_gap(text)?)?;
    if !ends_there(text) {
        return None;
    }
    u32::try_from(day as i64 * SECONDS_A_DAY + time as i64).ok()
}

// A space or a TAB.
pub(crate) fn is_space(byte: u8) -> bool
    ensures { result ≡ is_blank byte }
{
    byte == b' ' || byte == b'\t'
}

fn blank_count(text: &[u8]) -> usize
    ensures count { result ≡ prefix_len is_blank text.now }
    ensures within { result ≤ length text.now }
{
    text.iter().take_while(|byte| is_space(**byte)).count()
}

fn skip_blanks(text: &[u8]) -> &[u8]
    ensures { result.now ≡ behind_blanks text.now }
{
    &text[blank_count(text)..]
}

#[tactic(auto, unfolding(crate::specs::DateGrammar::behind_gap))]
fn skip_gap(text: &[u8]) -> Option<&[u8]>
    ensures { rest_of result ≡ behind_gap text.now }
{
    match blank_count(text) {
        0 => None,
        count => Some(&text[count..]),
    }
}

#[tactic(auto, unfolding(crate::specs::DateGrammar::one_digit))]
fn read_digit(text: &[u8]) -> Option<(u8, &[u8])>
    ensures value { part_of result ≡ one_digit text.now }
    ensures bound { IfSome result (λ p. p.0 < 100) }
{
    match text {
        [digit @ b'0'..=b'9', rest @ ..] => Some((*digit - b'0', rest)),
        _ => None,
    }
}

#[tactic(auto, unfolding(crate::specs::DateGrammar::two_digits))]
fn read_two_digits(text: &[u8]) -> Option<(u8, &[u8])>
    ensures value { part_of result ≡ two_digits text.now }
    ensures bound { IfSome result (λ p. p.0 < 100) }
{
    match text {
        [high @ b'0'..=b'9', low @ b'0'..=b'9', rest @ ..] => {
            Some(((*high - b'0') * 10 + (*low - b'0'), rest))
        }
        _ => None,
    }
}

#[tactic(auto, unfolding(crate::specs::DateGrammar::four_digits))]
fn read_year(text: &[u8]) -> Option<(u16, &[u8])>
    ensures value { part_of result ≡ four_digits text.now }
    ensures bound { IfSome result (λ p. p.0 < 10000) }
{
    let (high, text) = read_two_digits(text)?;
    let (low, text) = read_two_digits(text)?;
    Some((high as u16 * 100 + low as u16, text))
}

#[tactic(auto, unfolding(crate::specs::DateGrammar::behind_day_name))]
fn skip_day_name(text: &[u8]) -> &[u8]
    ensures { result.now ≡ behind_day_name text.now }
{
    match text {
        [a, b, c, b',', rest @ ..]
            if a.is_ascii_alphabetic() && b.is_ascii_alphabetic() && c.is_ascii_alphabetic() => {
            skip_blanks(rest)
        }
        _ => text,
    }
}

#[tactic(auto, unfolding(crate::specs::DateGrammar::day_of_month))]
fn read_day_of_month(text: &[u8]) -> Option<(u8, &[u8])>
    ensures value { part_of result ≡ day_of_month text.now }
    ensures bound { IfSome result (λ p. p.0 < 100) }
{
    read_two_digits(text).or(read_digit(text))
}

#[tactic(auto, unfolding(crate::specs::DateGrammar::three_letters))]
fn read_three_letters(text: &[u8]) -> Option<([u8; 3], &[u8])>
    ensures { part_of result ≡ three_letters text.now }
{
    match text {
        [a, b, c, rest @ ..] => {
            let name = [
                a.to_ascii_lowercase(),
                b.to_ascii_lowercase(),
                c.to_ascii_lowercase(),
            ];
            Some((name, rest))
        }
        _ => None,
    }
}

#[tactic(auto, unfolding(crate::specs::DateGrammar::month_of))]
fn read_month(text: &[u8]) -> Option<(u8, &[u8])>
    ensures value { part_of result ≡ month_of text.now }
    ensures bound { IfSome result (λ p. (1 ≤ p.0) × (p.0 ≤ 12)) }
{
    let (name, text) = read_three_letters(text)?;
    let place = MONTHS.iter().position(|month| *month == name)?;
    Some((place as u8 + 1, text))
}

// The number of the civil day since 1970, where the calendar has it.
#[tactic(auto, unfolding(crate::specs::DateGrammar::day_number))]
fn day_since_1970(year: u16, month: u8, day: u8) -> Option<i32>
    requires year { year < 10000 }
    requires month { (1 ≤ month) × (month ≤ 12) }
    requires day { day < 100 }
    ensures value { result ≡ day_number year month day }
    ensures bound { IfSome result (λ n. (neg_ℤ (pos 4371587) ≤ℤ n) × (n ≤ℤ pos 2932896)) }
{
    let date = Date::new(year as i16, month as i8, day as i8).ok()?;
    Some(date.to_unix_epoch_day())
}

#[tactic(auto, unfolding(crate::specs::DateGrammar::civil_day))]
fn read_civil_day(text: &[u8]) -> Option<(i32, &[u8])>
    ensures value { part_of result ≡ civil_day text.now }
    ensures bound { IfSome result (λ p. (neg_ℤ (pos 4371587) ≤ℤ p.0) × (p.0 ≤ℤ pos 2932896)) }
{
    let (day, text) = read_day_of_month(skip_day_name(skip_blanks(text)))?;
    let (month, text) = read_month(skip_gap(text)?)?;
    let (year, text) = read_year(skip_gap(text)?)?;
    Some((day_since_1970(year, month, day)?, text))
}

#[tactic(auto, unfolding(crate::specs::DateGrammar::behind_colon))]
fn skip_colon(text: &[u8]) -> Option<&[u8]>
    ensures { rest_of result ≡ behind_colon text.now }
{
    match text {
        [b':', rest @ ..] => Some(rest),
        _ => None,
    }
}

#[tactic(auto, unfolding(crate::specs::DateGrammar::second_of))]
fn read_second(text: &[u8]) -> Option<(u8, &[u8])>
    ensures value { part_of result ≡ second_of text.now }
    ensures bound { IfSome result (λ p. p.0 < 100) }
{
    match text {
        [b':', rest @ ..] => read_two_digits(rest),
        _ => Some((0, text)),
    }
}

// The seconds since midnight.
#[tactic(auto, unfolding(crate::specs::DateGrammar::clock_of))]
fn read_clock(text: &[u8]) -> Option<(u32, &[u8])>
    ensures value { part_of result ≡ clock_of text.now }
    ensures bound { IfSome result (λ p. p.0 < 86400) }
{
    let (hour, text) = read_two_digits(text)?;
    let (minute, text) = read_two_digits(skip_colon(text)?)?;
    let (second, text) = read_second(text)?;
    if hour > 23 || minute > 59 || second > 60 {
        return None;
    }
    Some((
        hour as u32 * 3600 + minute as u32 * 60 + second.min(59) as u32,
        text,
    ))
}

#[tactic(auto, unfolding(crate::specs::DateGrammar::zone_shift))]
fn read_zone_shift(text: &[u8]) -> Option<(u32, &[u8])>
    ensures value { part_of result ≡ zone_shift text.now }
    ensures bound { IfSome result (λ p. p.0 < 86400) }
{
    let (hours, text) = read_two_digits(text)?;
    let (minutes, text) = read_two_digits(text)?;
    if hours > 23 || minutes > 59 {
        return None;
    }
    Some((hours as u32 * 3600 + minutes as u32 * 60, text))
}

#[tactic(auto, unfolding(crate::specs::DateGrammar::behind_ut))]
fn skip_ut(text: &[u8]) -> Option<&[u8]>
    ensures { rest_of result ≡ behind_ut text.now }
{
    match text {
        [a, b, rest @ ..] if a.to_ascii_lowercase() == b'u' && b.to_ascii_lowercase() == b't' => {
            Some(rest)
        }
        _ => None,
    }
}

#[tactic(auto, unfolding(crate::specs::DateGrammar::behind_gmt))]
fn skip_gmt(text: &[u8]) -> Option<&[u8]>
    ensures { rest_of result ≡ behind_gmt text.now }
{
    let (name, rest) = read_three_letters(text)?;
    if name == *b"gmt" { Some(rest) } else { None }
}

// Whether the clocks of the zone are behind.
#[tactic(auto, unfolding(crate::specs::DateGrammar::sign_of))]
fn read_sign(text: &[u8]) -> Option<(bool, &[u8])>
    ensures { part_of result ≡ sign_of text.now }
{
    match text {
        [b'+', rest @ ..] => Some((false, rest)),
        [b'-', rest @ ..] => Some((true, rest)),
        _ => None,
    }
}

#[tactic(auto, unfolding(crate::specs::DateGrammar::shifted_zone))]
fn read_shifted_zone(text: &[u8]) -> Option<(i32, &[u8])>
    ensures value { part_of result ≡ shifted_zone text.now }
    ensures bound { IfSome result (λ p. (neg_ℤ (pos 86400) ≤ℤ p.0) × (p.0 ≤ℤ pos 86400)) }
{
    let (is_behind, text) = read_sign(text)?;
    let (shift, text) = read_zone_shift(text)?;
    let shift = shift as i32;
    Some((if is_behind { -shift } else { shift }, text))
}

// By how many seconds the clocks of the zone are ahead.
#[tactic(auto, unfolding(crate::specs::DateGrammar::zone_of))]
fn read_zone(text: &[u8]) -> Option<(i32, &[u8])>
    ensures value { part_of result ≡ zone_of text.now }
    ensures bound { IfSome result (λ p. (neg_ℤ (pos 86400) ≤ℤ p.0) × (p.0 ≤ℤ pos 86400)) }
{
    if let Some(zone) = read_shifted_zone(text) {
        return Some(zone);
    }
    let rest = skip_ut(text).or(skip_gmt(text))?;
    Some((0, rest))
}

// The time of the day in UTC, in seconds, which may lie in the day before or after.
#[tactic(auto, unfolding(crate::specs::DateGrammar::time_of))]
fn read_time(text: &[u8]) -> Option<(i32, &[u8])>
    ensures value { part_of result ≡ time_of text.now }
    ensures bound { IfSome result (λ p. (neg_ℤ (pos 86400) ≤ℤ p.0) × (p.0 ≤ℤ pos 172800)) }
{
    let (clock, text) = read_clock(text)?;
    let (zone, text) = read_zone(skip_gap(text)?)?;
    Some((clock as i32 - zone, text))
}

fn ends_there(text: &[u8]) -> bool
    ensures { result ≡ is_done text.now }
{
    match text {
        [first, ..] => is_space(*first),
        [] => true,
    }
}
