// The checks for a program in another language, so that their speed can be compared with a plain one. An answer is 0 where
// the file is accepted, and else the number of the refusal, the line and the byte, in this order, in 8, 28 and 28 bits. These
// are numbers and no enums, here and below, as the C interface needs.
#![tactic(auto)]

use books::Home;
use model::{Card, Fault, MOST, State};
use reading::read;
use viewing::open;

fn packed(fault: Fault) -> u64 {
    ((fault.number as u64) << 56)
        | (((fault.line & 0xFFF_FFFF) as u64) << 28)
        | ((fault.byte & 0xFFF_FFFF) as u64)
}

#[unsafe(no_mangle)]
pub extern "C" fn intake_check_characters(file: &[u8]) -> u64 {
    match characters::check(file) {
        Ok(()) => 0,
        Err(fault) => packed(fault.fault()),
    }
}

#[unsafe(no_mangle)]
pub extern "C" fn intake_check_lines(file: &[u8]) -> u64 {
    match lines::check(file) {
        Ok(_) => 0,
        Err(fault) => packed(fault.fault()),
    }
}

// The byte of a card that stands as filed; no byte of a file is the largest number.
fn start_of(card: Card) -> u32 {
    match card.state {
        State::Filed => card.byte,
        _ => u32::MAX,
    }
}

fn put_starts(starts: &mut [u32], cards: &[Card]) {
    for (start, card) in starts.iter_mut().zip(cards) {
        *start = start_of(*card);
    }
}

// Reads a file with the home book into a drawer with as many cards as there are places for their bytes, and no more than a
// tree may have. Only plain numbers cross to the other language, so the drawer is here and its bytes are put into the
// places. The last number is how many cards there are, or the missing type of a refusal.
#[unsafe(no_mangle)]
pub extern "C" fn intake_read_home(file: &[u8], starts: &mut [u32], told: &mut u32) -> u64 {
    let mut cards = [Card::BLANK; MOST];
    let lent = starts.len().min(MOST);
    let drawer = &mut cards[0..lent];
    match read(file, drawer, &Home) {
        Ok(count) => {
            put_starts(starts, drawer);
            *told = (count & 0xFFFF) as u32;
            0
        }
        Err(refused) => {
            put_starts(starts, drawer);
            let fault = refused.fault();
            *told = fault.missing.map_or(0, u32::from);
            packed(fault)
        }
    }
}

// Cards as filed, of the lines that begin at these bytes.
fn file_cards(cards: &mut [Card], starts: &[u32]) {
    for (card, start) in cards.iter_mut().zip(starts) {
        *card = Card {
            byte: *start,
            state: State::Filed,
        };
    }
}

// Opens a view of cards as filed, and answers how many there are; 0 where it is refused.
#[unsafe(no_mangle)]
pub extern "C" fn intake_open(file: &[u8], starts: &[u32]) -> u64 {
    let mut cards = [Card::BLANK; MOST];
    file_cards(&mut cards, starts);
    open(file, &cards).map_or(0, |view| view.count() as u64)
}

// Opens such a view and writes it, and answers how many bytes that is; 0 where it is refused.
#[unsafe(no_mangle)]
pub extern "C" fn intake_write(file: &[u8], starts: &[u32], buffer: &mut [u8]) -> u64 {
    let mut cards = [Card::BLANK; MOST];
    file_cards(&mut cards, starts);
    open(file, &cards)
        .and_then(|view| view.write(buffer))
        .map_or(0, |size| size as u64)
}
