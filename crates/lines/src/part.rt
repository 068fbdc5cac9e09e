// Parts of a line, from the left.
ghost use Rattle.std.specs.Prelude.{◌≡◌, ℕ, Bool, ◌≤◌, min, true, length};
ghost use Rattle.std.specs.Option.{option_map};
ghost use Rattle.std.specs.List.{prefix_len};
ghost use Rattle.model.specs.Lines.{tag_char, tag_chars, is_tag as tag_form};
ghost use Rattle.model.specs.Scan.{number_of, read_byte, is_level as level_digits};
ghost use Rattle.lines.specs.Parsed.{ReadsLevel, ReadsMarked, ReadsTag};

fn is_tag_character(b: u8) -> bool
    ensures { result ≡ tag_char b }
{
    b.is_ascii_uppercase() || b.is_ascii_digit() || b == b'_'
}

// How many bytes that pass the part begins with.
pub fn run<P: Fn(u8) -> bool>(bytes: &[u8], passes: P) -> usize
    requires { P.IsAlwaysCallable passes }
    ensures value { (p : ℕ → Bool) → ((b : ℕ) (r : Bool) → P.post passes b r → r ≡ p b) → result ≡ prefix_len p bytes.now }
    ensures bound { result ≤ length bytes.now }
{
    bytes.iter().take_while(|b| passes(**b)).count()
}

// The number that digits spell, up to 100, past which no level is told from another.
fn capped(digits: &[u8]) -> u8
    ensures { result ≡ min 100 (number_of digits.now) }
{
    let mut n: u16 = 0;
    for d in digits {
        n = (n * 10 + (*d as u16).saturating_sub(b'0' as u16)).min(100);
    }
    n as u8
}

// Whether digits are a level: no zero stands before others.
fn is_level(digits: &[u8]) -> bool
    ensures { result ≡ level_digits digits.now }
{
    match digits {
        [] => false,
        [_] => true,
        [first, ..] => *first != b'0',
    }
}

// A level, and what follows it.
pub fn read_level(bytes: &[u8]) -> Option<(u8, &[u8])>
    ensures { ReadsLevel bytes.now result }
{
    let (digits, rest) = bytes.split_at(run(bytes, |b| b.is_ascii_digit()));
    is_level(digits).then(|| (capped(digits), rest))
}

// What follows a space.
pub fn read_space(bytes: &[u8]) -> Option<&[u8]>
    ensures { option_map (λ x. x.now) result ≡ read_byte 32 bytes.now }
{
    bytes.strip_prefix(b" ")
}

// Where the part begins with @: what stands from it to the next, both with it, and what follows.
pub fn read_marked(bytes: &[u8]) -> Option<(&[u8], &[u8])>
    ensures { ReadsMarked bytes.now result }
{
    let [_, behind @ ..] = bytes else {
        return None;
    };
    let n = run(behind, is_tag_character);
    (n > 0 && behind.get(n) == Some(&b'@')).then(|| bytes.split_at(n + 2))
}

// Whether characters of a tag are one: the first is a letter, or _ with one more behind it.
fn is_tag(run: &[u8]) -> bool
    ensures { tag_chars run.now ≡ true → result ≡ tag_form run.now }
{
    match run {
        [] => false,
        [only] => only.is_ascii_uppercase(),
        [first, ..] => first.is_ascii_uppercase() || *first == b'_',
    }
}

// A tag, and what follows it.
pub fn read_tag(bytes: &[u8]) -> Option<(&[u8], &[u8])>
    ensures { ReadsTag bytes.now result }
{
    let (tag, rest) = bytes.split_at(run(bytes, is_tag_character));
    is_tag(tag).then_some((tag, rest))
}
