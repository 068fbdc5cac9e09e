// The tree that a drawer holds.
ghost use Rattle.std.specs.Prelude.{◌≤◌, length};
ghost use Rattle.removing.specs.Entering.{Enters};

use holding::held;
use model::Card;
use naming::Named;
use reading::Entered;

// The cards of the tree that a drawer holds, if it holds one. The table is for their identifiers, and has to be as long
// as the cards that a drawer may hold.
pub fn enter<'f, 'c, 'n>(
    file: &'f [u8],
    drawer: &'c [Card],
    table: &'n mut [Named<'f>],
) -> Option<Entered<'f, 'c, 'n>>
    ensures { 65535 ≤ length table.old → Enters file.now drawer.now result }
{
    let kept = held(file, drawer, table)?;
    let index = &table[..];
    Some(Entered {
        file,
        cards: kept.cards,
        names: &index[..kept.names],
    })
}
