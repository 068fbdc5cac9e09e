ghost use Rattle.std.specs.Prelude.{◌≡◌};
ghost use Rattle.std.specs.Option.{option_map};
ghost use Rattle.model.specs.Grammar.{pair_within, read_pair, read_hour, read_digits, read_fraction, read_seconds, is_zone, is_time};

// Two digits that count at most so many.
fn is_pair_within(most: u8, tens: u8, ones: u8) -> bool
    ensures { result ≡ pair_within most tens ones }
{
    tens.is_ascii_digit() && ones.is_ascii_digit() && 10 * (tens - b'0') + (ones - b'0') <= most
}

// Behind such two digits.
fn after_pair(most: u8, text: &[u8]) -> Option<&[u8]>
    ensures { option_map (λ x. x.now) result ≡ read_pair most text.now }
{
    match text {
        [tens, ones, rest @ ..] if is_pair_within(most, *tens, *ones) => Some(rest),
        _ => None,
    }
}

// Behind an hour, in one digit or two, and a colon.
fn after_hour(text: &[u8]) -> Option<&[u8]>
    ensures { option_map (λ x. x.now) result ≡ read_hour text.now }
{
    match text {
        [digit, b':', rest @ ..] => digit.is_ascii_digit().then_some(rest),
        [tens, ones, b':', rest @ ..] if is_pair_within(23, *tens, *ones) => Some(rest),
        _ => None,
    }
}

// Behind the digits in front, if there is one.
pub fn after_digits(text: &[u8]) -> Option<&[u8]>
    ensures { option_map (λ x. x.now) result ≡ read_digits text.now }
{
    match text.iter().take_while(|c| c.is_ascii_digit()).count() {
        0 => None,
        n => Some(&text[n..]),
    }
}

// Behind a point and a number, if a point stands here.
fn after_fraction(text: &[u8]) -> Option<&[u8]>
    ensures { option_map (λ x. x.now) result ≡ read_fraction text.now }
{
    match text {
        [b'.', rest @ ..] => after_digits(rest),
        _ => Some(text),
    }
}

// Behind a colon, the seconds and their fraction, if a colon stands here.
fn after_seconds(text: &[u8]) -> Option<&[u8]>
    ensures { option_map (λ x. x.now) result ≡ read_seconds text.now }
{
    match text {
        [b':', rest @ ..] => after_fraction(after_pair(59, rest)?),
        _ => Some(text),
    }
}

// Nothing, or the letter for the time of the prime meridian.
fn is_zone(text: &[u8]) -> bool
    ensures { result ≡ is_zone text.now }
{
    matches!(text, b"" | b"Z")
}

// Hours and minutes, perhaps seconds and their fraction, perhaps a zone.
pub fn is_time(text: &[u8]) -> bool
    ensures { result ≡ is_time text.now }
{
    after_hour(text)
        .and_then(|minutes| after_pair(59, minutes))
        .and_then(after_seconds)
        .is_some_and(is_zone)
}
