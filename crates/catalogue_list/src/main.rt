// The catalogue's program: writes every entry in order, a line each. It reads nothing.

#![tactic(auto)]

ghost use Rattle.std.specs.Prelude.{◌≡◌, length};
ghost use Rattle.catalogue.specs.Catalogue.{catalogue};
ghost use Rattle.catalogue_list.specs.Lines.{list_bytes, lines_of};

use catalogue::{MATRICES, entry_at};
use streams::line::{MATRIX_ROOM, matrix_line};
use streams::stream::send;

// Room for all lines.
const LIST_BYTES: usize = MATRICES * MATRIX_ROOM;

// Puts the lines of all entries into lent memory.
fn write_lines(text: &mut [u8])
    requires { length text.old ≡ list_bytes }
    ensures { text.new ≡ lines_of catalogue }
{
    for position in 0..MATRICES {
        let matrix = entry_at(position).unwrap();
        let from = position * MATRIX_ROOM;
        let to = from + MATRIX_ROOM;
        matrix_line(matrix, &mut text[from..to]);
    }
}

fn main(rt: HostRuntime) {
    let mut text = [0u8; LIST_BYTES];
    write_lines(&mut text);
    send(&rt, &text);
}
