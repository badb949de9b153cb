//! The marks of one row: what they say is known, and what close makes of them.
ghost use Rattle.std.specs.Prelude.{◌≡◌, length};
ghost use Rattle.table.specs.Closing.{filled_mark};
ghost use Rattle.closing.specs.Rows.{KnownBy, EachMarked, mark_by};

use marks::Mark;
use rowcode::Mended;

/// Tells which cells of a row are known, by its marks.
pub(crate) fn tell_known(marks: &[u8], known: &mut [bool])
    requires { length known.old ≡ length marks.now }
    ensures { KnownBy marks.now known.new }
{
    for (k, is_known) in known.iter_mut().enumerate() {
        *is_known = Mark::from(marks[k]).is_known();
    }
}

// Marks those cells of a filled row that were unknown.
fn mark_filled(marks: &mut [u8])
    ensures { EachMarked filled_mark marks.old marks.new }
{
    for mark in marks.iter_mut() {
        if !Mark::from(*mark).is_known() {
            *mark = Mark::Filled.byte();
        }
    }
}

/// Marks a row by its answer: in a filled one the cells that were unknown, in a torn one all as unknown; those of an open one
/// stay.
pub(crate) fn mark_row(answer: Mended, marks: &mut [u8])
    ensures { EachMarked (mark_by answer) marks.old marks.new }
{
    match answer {
        Mended::Filled => mark_filled(marks),
        Mended::Torn => marks.fill(Mark::Unknown.byte()),
        Mended::Open => {}
    }
}
