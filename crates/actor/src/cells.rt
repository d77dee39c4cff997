// A number that may be missing, in two cells of a row: a tag, 0 where it is missing, and the number.
ghost use Rattle.std.specs.Prelude.{◌≡◌, ◌<◌, [], get_or};
ghost use Rattle.actor.specs.Actors.{tagged_number};

use lists::cell_at;

// The number whose tag is the cell `tag` of a row, and which is the cell `at`; past the table's end there is none.
pub(crate) fn number_at<const N: usize>(
    rows: &[[u64; N]],
    row: usize,
    tag: usize,
    at: usize,
) -> Option<u64>
    requires tag_in { tag < N }
    requires at_in { at < N }
    ensures { result
        ≡ tagged_number (get_or (get_or rows.now row []) tag 0) (get_or (get_or rows.now row []) at 0) }
{
    (cell_at(rows, row, tag) != 0).then_some(cell_at(rows, row, at))
}
