//! How many rows are filled, torn and open.
ghost use Rattle.std.specs.Prelude.{◌≡◌};
ghost use Rattle.table.specs.Closing.{rows_named, Tallied};

use crate::Tallies;
use rowcode::Mended;

// How many rows have this answer's name.
fn count_named(names: &[u8], answer: Mended) -> usize
    ensures { result ≡ rows_named names.now answer }
{
    let number = answer.number();
    names.iter().filter(|name| **name == number).count()
}

/// The tallies: how often each name stands in the names.
pub(crate) fn tally(names: &[u8]) -> Tallies
    ensures { Tallied names.now result }
{
    (
        count_named(names, Mended::Filled),
        count_named(names, Mended::Torn),
        count_named(names, Mended::Open),
    )
}
