// Where a partition fits best: the start of the smallest free extent that holds it.
ghost use Rattle.std.specs.Prelude.{◌≡◌};
ghost use Rattle.queries.specs.Queries.{fit_answer_in, fit_of};
ghost use Rattle.table.specs.Extents.{empty_extent};
ghost use Rattle.queries.specs.FitQuery.{fits_better, best_of, is_size_in_range};

use crate::extent_list::{extent_size, free_extents};
use common::{Layout, Location, Refusal, is_one_to};
use table::{Extent, Table, check_table};

// Whether an extent takes the place of the best one so far.
#[tactic(auto, unfolding(crate::specs::FitQuery::fits_better))]
fn fits_better(size: usize, e: Extent, best: Extent) -> bool
    ensures { result ≡ fits_better size e best }
{
    let length = extent_size(e);
    let other = extent_size(best);
    (size <= length) & (!(size <= other) | (length < other))
}

// The best of the extents: of equal ones the first, and the empty one if there is none, as the definition has it.
fn best_of(size: usize, extents: &[Extent]) -> Extent
    ensures { result ≡ best_of size empty_extent extents.now }
{
    extents.iter().fold(
        Extent::default(),
        |best, e| if fits_better(size, *e, best) {
            *e
        } else {
            best
        },
    )
}

// Whether a partition of that size may be asked about.
fn is_size_in_range(size: usize) -> bool
    ensures { result ≡ is_size_in_range size }
{
    is_one_to(size, Layout::MAX_SIZE)
}

// Document 02's finding of a place. It takes no memory.
pub fn fit(table: Table, size: usize) -> Result<Location, Refusal>
    ensures { fit_answer_in result ≡ fit_of table size }
{
    check_table(table)?;
    if !is_size_in_range(size) {
        return Err(Refusal::Size);
    }
    let best = best_of(size, &free_extents(table));
    if extent_size(best) < size {
        return Err(Refusal::NoExtent);
    }
    Ok(Location(best.start as u32))
}
