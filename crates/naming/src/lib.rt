// The identifiers of a drawer's cards: none stands twice, and every pointer names one of them. The file, the cards and the
// table of an index stay parameters, since each is lent by another.
#![tactic(auto)]

ghost use Rattle.std.specs.Prelude.{◌≡◌, ◌<◌, ◌≤◌, length, IfOk};
ghost use Rattle.naming.specs.Naming.{ShowsName, ShowsPointer, LeastName, FindsName, FindsLost, NamesFit, Collects, Indexes, IsLost, TargetOf};

use lines::Payload;
use looking::line_at;
use model::{Card, State};

// The identifier of a card, and the card.
pub type Named<'a> = (&'a [u8], usize);

// What stands in a table before an index does.
pub const UNNAMED: Named<'static> = (b"", 0);

// Why the identifiers and pointers of the cards are refused, with the first card at which they are.
#[derive(Clone, Copy, PartialEq, Eq, Debug)]
pub enum NameFault {
    // its identifier is that of a card before it
    Repeated(usize),
    // its pointer names no card
    Lost(usize),
}

// Of any card whose byte is a line's; looking's `identifier_of` speaks of a dataset's cards alone.
fn shown_name(file: &[u8], card: Card) -> Option<&[u8]>
    ensures { ShowsName file.now card result }
{
    line_at(file, card.byte as usize)?.identifier
}

// What the card's pointer names, if its state leaves it one.
fn pointer_of(file: &[u8], card: Card) -> Option<&[u8]>
    ensures { ShowsPointer file.now card result }
{
    match card.state {
        State::Voided | State::Emptied => None,
        State::Filed | State::Blank => match line_at(file, card.byte as usize)?.payload {
            Payload::Pointer(pointer) => Some(pointer),
            Payload::None | Payload::Void | Payload::Text(_) => None,
        },
    }
}

// Puts the cards that have an identifier to the front of the table, and answers how many there are.
fn collect<'a>(file: &'a [u8], cards: &[Card], table: &mut [Named<'a>]) -> usize
    requires { length cards.now ≤ length table.old }
    ensures { Collects file.now cards.now result table.new }
{
    // a count of what is filled, and no arrayvec: the table, of 65,535 entries, is the caller's
    let mut count = 0;
    for (card, shown) in cards.iter().enumerate() {
        if let Some(name) = shown_name(file, *shown) {
            table[count] = (name, card);
            count += 1;
        }
    }
    count
}

// Fills the front of the table with the index of the cards, and answers how much of it that is.
fn index<'a>(file: &'a [u8], cards: &[Card], table: &mut [Named<'a>]) -> usize
    requires { length cards.now ≤ length table.old }
    ensures { Indexes file.now cards.now result table.new }
{
    let count = collect(file, cards, table);
    table[..count].sort_unstable();
    count
}

// The least card whose identifier the one before it in the index has too.
fn repeated(names: &[Named<'_>]) -> Option<usize>
    ensures { LeastName names.now (length names.now) result }
{
    names
        .windows(2)
        .filter(|pair| pair[0].0 == pair[1].0)
        .map(|pair| pair[1].1)
        .min()
}

// The card that has an identifier, by the index.
pub fn find(names: &[Named<'_>], name: &[u8]) -> Option<usize>
    ensures { FindsName names.now name.now result }
{
    let (Ok(at) | Err(at)) = names.binary_search(&(name, 0));
    let entry = names.get(at)?;
    (entry.0 == name).then_some(entry.1)
}

// The card that a card's pointer names, by the index of the cards, or none if it names none.
pub fn target_of(file: &[u8], card: Card, names: &[Named<'_>]) -> Option<usize>
    ensures { TargetOf file.now card names.now result }
{
    find(names, pointer_of(file, card)?)
}

fn is_lost(file: &[u8], card: Card, names: &[Named<'_>]) -> bool
    ensures { IsLost file.now card names.now result }
{
    pointer_of(file, card).is_some_and(|pointer| find(names, pointer).is_none())
}

// The first card whose pointer names none.
fn lost(file: &[u8], cards: &[Card], names: &[Named<'_>]) -> Option<usize>
    ensures { FindsLost file.now cards.now names.now result }
{
    cards.iter().position(|card| is_lost(file, *card, names))
}

// Whether the identifiers of the cards are apart and their pointers name them. Then the front of the table is the index of
// them, and the answer is how much of it. The table has to be as long as there are cards. A count and no slice of the
// table: of a table of which a part is lent on no clause could say what it holds after the call.
pub fn check_names<'a>(
    file: &'a [u8],
    cards: &[Card],
    table: &mut [Named<'a>],
) -> Result<usize, NameFault>
    ensures names { NamesFit file.now cards.now table.old result table.new }
    ensures within { IfOk result (λ n. n ≤ length table.new) }
{
    // no clause speaks of cards for which the table has no room, so they are passed over
    let cards = &cards[..cards.len().min(table.len())];
    let count = index(file, cards, table);
    let names = &table[..count];
    if let Some(card) = repeated(names) {
        return Err(NameFault::Repeated(card));
    }
    if let Some(card) = lost(file, cards, names) {
        return Err(NameFault::Lost(card));
    }
    Ok(count)
}
