// Whether a tree belongs to a book.
ghost use Rattle.std.specs.Prelude.{Decides};
ghost use Rattle.model.specs.Datasets.{Dataset};
ghost use Rattle.model.specs.Rules.{Belongs};
ghost use Rattle.removing.specs.Belonging.{Tells};
ghost use Rattle.removing.specs.Entering.{EnteredAs};

use crate::entering::enter;
use books::Book;
use judging::judge;
use model::{Card, MOST};
use naming::UNNAMED;
use reading::Entered;

// Whether the tree of the entered cards breaks no rule of the book.
pub fn keeps_rules<B: Book>(entered: Entered<'_, '_, '_>, book: &B) -> bool
    ensures { (d : Dataset) → EnteredAs entered.entry d → Decides result (Belongs (B.meaning book.now) d) }
{
    judge(book, &entered).is_ok()
}

// Whether the tree that a drawer holds belongs to the book; none where it holds no tree of the file.
pub fn belongs<B: Book>(file: &[u8], drawer: &[Card], book: &B) -> Option<bool>
    ensures tells { Tells (B.meaning book.now) file.now drawer.now result }
{
    let mut table = [UNNAMED; MOST];
    let entered = enter(file, drawer, &mut table)?;
    Some(keeps_rules(entered, book))
}
