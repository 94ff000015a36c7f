//! How much of contexts a page shows.

ghost use Rattle.std.specs.Prelude.{◌≡◌, take};
ghost use Rattle.sv_page.specs.Shares as spec;

/// The number of rows that a page shows at most.
pub const MAX_SHOWN_ROWS: usize = 2_000;

/// The number of findings that a page lists at most.
pub const MAX_LISTED_FINDINGS: usize = 2_000;

/// Returns the first items, at most so many.
pub(crate) fn first_of<T>(items: &[T], most: usize) -> &[T]
    ensures { result.now ≡ take most items.now }
{
    if items.len() <= most {
        items
    } else {
        &items[..most]
    }
}

/// The law that a page shows at most [`MAX_SHOWN_ROWS`] rows: the first ones of all contexts together, and all rows of
/// each context if there are no more.
pub fn pages_show_the_first_rows()
    ensures few { spec.ShowsFewRows }
    ensures first { spec.ShowsFirstRows }
    ensures all { spec.ShowsAllRows }
{}

/// The same law of the [`MAX_LISTED_FINDINGS`] findings that a page lists.
pub fn pages_list_the_first_findings()
    ensures few { spec.ListsFewFindings }
    ensures first { spec.ListsFirstFindings }
    ensures all { spec.ListsAllFindings }
{}

/// The limits of this crate as numbers.
pub fn limits_are_as_stated()
    ensures rows { MAX_SHOWN_ROWS ≡ 2000 }
    ensures findings { MAX_LISTED_FINDINGS ≡ 2000 }
{}
