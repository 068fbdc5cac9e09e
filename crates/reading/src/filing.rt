// Reading a tree: the drawer then holds the one dataset of the book with the file's lines, or is blank.
ghost use Rattle.std.specs.Prelude.{◌≡◌, ◌≤◌, length};
ghost use Rattle.reading.specs.Read.{Fits, Judges, JudgesNamed, Reads, PlacedAt, TellsBook, TellsNames, fault_by};

use crate::entered::Entered;
use crate::fault::ReadFault;
use books::Book;
use filling::{blank_from, fill};
use judging::{Finding, Rule, judge};
use looking::place_at;
use model::{Card, MOST, Place};
use naming::{NameFault, UNNAMED, check_names};

// Where the line of a card is.
fn place_of(file: &[u8], cards: &[Card], card: usize) -> Place
    ensures { PlacedAt file.now cards.now card result }
{
    cards.get(card).map_or(Place::NOWHERE, |found| place_at(file, found.byte as usize))
}

fn told(rule: Rule, at: Place) -> ReadFault
    ensures { result ≡ fault_by rule at }
{
    match rule {
        Rule::Known => ReadFault::Unknown(at),
        Rule::Taken => ReadFault::Untaken(at),
        Rule::Aimed => ReadFault::Misaimed(at),
        Rule::Single => ReadFault::Second(at),
        Rule::Needed(missing) => ReadFault::Missing(at, missing),
        Rule::Filled => ReadFault::Bare(at),
    }
}

fn told_of_names(file: &[u8], cards: &[Card], fault: NameFault) -> ReadFault
    ensures { TellsNames file.now cards.now fault result }
{
    match fault {
        NameFault::Repeated(card) => ReadFault::Repeated(place_of(file, cards, card)),
        NameFault::Lost(card) => ReadFault::Lost(place_of(file, cards, card)),
    }
}

fn told_of_book(file: &[u8], cards: &[Card], finding: Finding) -> ReadFault
    ensures { TellsBook file.now cards.now finding result }
{
    let at = place_of(file, cards, finding.card);
    told(finding.rule, at)
}

// Whether cards that keep the rules of the identifiers keep those of the book.
fn judge_named<B: Book>(entered: Entered<'_, '_, '_>, book: &B) -> Result<(), ReadFault>
    ensures { JudgesNamed (B.meaning book.now) entered.entry result }
{
    judge(book, &entered).map_err(|finding| told_of_book(entered.file, entered.cards, finding))
}

// Whether the cards of a file that keeps the rules of the lines keep those of the identifiers and of the book.
fn judge_cards<B: Book>(file: &[u8], cards: &[Card], book: &B) -> Result<(), ReadFault>
    ensures { length cards.now ≤ 65535 → Judges (B.meaning book.now) file.now cards.now result }
{
    let mut table = [UNNAMED; MOST];
    let count = check_names(file, cards, &mut table).map_err(|fault| told_of_names(
        file, cards, fault,
    ))?;
    let names = &table[..count];
    judge_named(Entered { file, cards, names }, book)
}

fn fill_and_judge<B: Book>(file: &[u8], drawer: &mut [Card], book: &B) -> Result<usize, ReadFault>
    ensures { Fits (B.meaning book.now) file.now (length drawer.old) result drawer.new }
{
    lines::check(file)?;
    let count = fill(file, drawer).map_err(ReadFault::NoCard)?;
    // a count beside the drawer, which is lent and keeps its length: no heap in the eight calls
    let filled = count.min(drawer.len());
    judge_cards(file, &drawer[..filled], book)?;
    Ok(count)
}

// Reads a tree into the drawer. Accepted, every line but a continuation has a card, in order, and the other cards are
// blank; the answer is how many there are. Refused, every card is blank.
pub fn read<B: Book>(file: &[u8], drawer: &mut [Card], book: &B) -> Result<usize, ReadFault>
    ensures reads { Reads (B.meaning book.now) file.now drawer.old result drawer.new }
    ensures long { length drawer.new ≡ length drawer.old }
{
    let answer = fill_and_judge(file, drawer, book);
    if answer.is_err() {
        blank_from(drawer, 0);
    }
    answer
}
