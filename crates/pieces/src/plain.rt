ghost use Rattle.std.specs.Prelude.{◌≡◌, map};
ghost use Rattle.model.specs.Tables.{among};
ghost use Rattle.model.specs.Kinds.{all_digits, slashes};
ghost use Rattle.model.specs.Grammar.{is_flag, is_integer, is_version, is_person};

// The letter that says that an event took place.
pub fn is_flag(text: &[u8]) -> bool
    ensures { result ≡ is_flag text.now }
{
    matches!(text, b"Y")
}

fn are_digits(text: &[u8]) -> bool
    ensures { result ≡ all_digits text.now }
{
    text.iter().all(|c| c.is_ascii_digit())
}

// One digit or more, however many.
pub fn is_integer(text: &[u8]) -> bool
    ensures { result ≡ is_integer text.now }
{
    !text.is_empty() && are_digits(text)
}

// The version of the format, alone or with the number of a correction.
pub fn is_version(text: &[u8]) -> bool
    ensures { result ≡ is_version text.now }
{
    matches!(text, b"7.0") || text.strip_prefix(b"7.0.").is_some_and(is_integer)
}

// A sum: a count of what a filter lets through takes twice as long on long names.
fn slashes_in(text: &[u8]) -> usize
    ensures { result ≡ slashes text.now }
{
    text.iter().map(|c| usize::from(*c == b'/')).sum()
}

// A name has no tab, and its surname, where it is marked, stands between two slashes.
#[tactic(auto, using(crate::proofs::Chains::tab_by_any))]
pub fn is_person(text: &[u8]) -> bool
    ensures { result ≡ is_person text.now }
{
    !text.is_empty() && !text.contains(&b'\t') && matches!(slashes_in(text), 0 | 2)
}

// Whether a word is among some.
pub fn is_one_of(word: &[u8], words: &[&[u8]]) -> bool
    ensures { result ≡ among (map (λ x. x.now) words.now) word.now }
{
    words.iter().any(|known| *known == word)
}
