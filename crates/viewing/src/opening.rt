// Opening a view.
ghost use Rattle.viewing.specs.Views.{Opens};

use crate::view::View;
use holding::held;
use model::{Card, MOST, Refusal};
use naming::UNNAMED;

// A view of the dataset that the drawer holds, if it holds one of the file. The check is not made again while it stands.
pub fn open<'f, 'c>(file: &'f [u8], drawer: &'c [Card]) -> Result<View<'f, 'c>, Refusal>
    ensures { Opens file.now drawer.now result }
{
    let mut table = [UNNAMED; MOST];
    // a match: with map and ok_or the view's ghost field was not proved
    match held(file, drawer, &mut table) {
        Some(_) => Ok(View { file, drawer }),
        None => Err(Refusal::Unheld),
    }
}
