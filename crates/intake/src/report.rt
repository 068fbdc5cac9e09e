use crate::failure::Failure;
use books::Shelf;
use characters::without_mark;
use kinds::Content;
use lines::Counts;
use looking::{content_of, level_of, tag_of};
use model::Card;

// What is told of a file: its length, its mark, its lines and how deep they go.
pub fn file_told(rt: &HostRuntime, path: &str, file: &[u8], counts: Counts) -> Result<(), Failure> {
    let bytes = file.len();
    let mark = if without_mark(file).len() < bytes {
        "with"
    } else {
        "without"
    };
    let lines = counts.lines;
    let continued = lines.saturating_sub(counts.cards);
    let deepest = counts.deepest;
    println!(rt; "{path}: {bytes} bytes, {mark} a byte-order mark")?;
    println!(rt;
        "{lines} lines, of which {continued} continue a text; the deepest level is {deepest}"
    )?;
    Ok(())
}

// One line for each tag at the top, with how many structures have it.
fn tags_told(rt: &HostRuntime, tags: &[&[u8]]) -> Result<(), Failure> {
    for alike in tags.chunk_by(|one, next| one == next) {
        let many = alike.len();
        if let [tag, ..] = alike
            && let Ok(tag) = std::str::from_utf8(tag)
        {
            println!(rt; "  {many} {tag}")?;
        }
    }
    Ok(())
}

// What is told of a tree that was read: its book, its cards, what stands at the top, and its pointers.
pub fn tree_told(
    rt: &HostRuntime,
    shelf: Shelf,
    file: &[u8],
    cards: &[Card],
) -> Result<(), Failure> {
    let many = cards.len();
    println!(rt; "it belongs to the {shelf} book, with {many} cards; at the top stand")?;
    let mut tags = Vec::new(rt.alloc());
    let mut pointers: usize = 0;
    let mut void: usize = 0;
    for card in cards {
        if level_of(file, *card) == 0 {
            tags.push(tag_of(file, *card))?;
        }
        match content_of(file, *card) {
            Content::Pointer(_) => pointers = pointers.saturating_add(1),
            Content::Void => void = void.saturating_add(1),
            Content::Nothing | Content::Line(_) | Content::Lines => {}
        }
    }
    tags.sort_unstable();
    tags_told(rt, &tags)?;
    let all = pointers.saturating_add(void);
    println!(rt; "{all} pointers, of which {void} are void")?;
    Ok(())
}
