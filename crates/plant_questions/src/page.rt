//! Pages of lists.
ghost use Rattle.std.specs.Prelude.{◌≡◌};
ghost use Rattle.plant_questions.specs.Pages.{page_of};

use plant_base::Items;

/// No page has more rows.
pub const PAGE_SIZE: u16 = 100;

/// The first rows of a list, and whether the list goes on after them.
#[derive(Drop)]
pub struct Page<R> {
    /// At most [`PAGE_SIZE`], in the order of the list.
    pub rows: Items<R>,
    /// Whether the list has more rows after these.
    pub has_more: bool,
}

/// The first page of a list. No memory is taken.
pub fn first_page<R: Drop>(mut rows: Vec<R>) -> Page<R>
    ensures { result ≡ page_of rows.items }
{
    let most = usize::from(PAGE_SIZE);
    let has_more = rows.len() > most;
    rows.truncate(most);
    Page {
        rows: Items::new(rows),
        has_more,
    }
}
