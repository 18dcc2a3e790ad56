// How many bytes the records take that a caller lends: include/downskillet.h declares them so long.
ghost use Rattle.std.specs.Prelude.{◌≡◌};

use analysis::records::{Entry, Vertex};
use std::mem::size_of;

#[unsafe(no_mangle)]
pub extern "C" fn downskillet_vertex_bytes() -> usize
    ensures { result ≡ 40 }
{
    size_of::<Vertex>()
}

#[unsafe(no_mangle)]
pub extern "C" fn downskillet_entry_bytes() -> usize
    ensures { result ≡ 8 }
{
    size_of::<Entry>()
}
