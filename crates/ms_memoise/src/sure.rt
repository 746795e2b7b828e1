ghost use Rattle.std.specs.Prelude.{◌≡◌, ◌≤◌, ◌⊎◌, ◌++◌, [], Some, length, IsTrue};
ghost use Rattle.std.specs.Str.Lines.{lines};
ghost use Rattle.ms_memoise.specs.Conversations.{Conversation, outside};
ghost use Rattle.ms_memoise.specs.Events.{has_quit, replies};
ghost use Rattle.ms_outside.specs.Memory.{sure_counts};
ghost use Rattle.ms_session.specs.Outside.{shelf_side};

use crate::program::memoise;
use crate::status::Status;
use ms_outside::{SureShelf, SureSink, SureSource};
use std::alloc::Global;

/// The program over an outside that never fails, with an input of at most 4,294,967,295 bytes: unless
/// memory runs out, it is done.
pub fn memoise_sure(
    alloc: Global,
    source: &mut SureSource,
    shelf: &mut SureShelf,
    sink: &mut SureSink,
) -> Status
    requires { length source.old ≤ 4294967295 }
    // As for any devices: what was read, done and written, and why it ended.
    ensures conversation { Conversation 4294967295
        (outside (Some source.old) 0 (shelf_side (Some shelf.old.files) (sure_counts shelf.old) shelf.old.asked) (Some sink.old) 0)
        (outside (Some source.new) 0 (shelf_side (Some shelf.new.files) (sure_counts shelf.new) shelf.new.asked) (Some sink.new) 0)
        result }
    ensures done { (result ≡ Status.Done) ⊎ (result ≡ Status.NoMemory) }
    // All of it was read, or a quit is among its lines; and the replies to its lines up to the first quit
    // were written.
    ensures end { result ≡ Status.Done → (source.new ≡ []) ⊎ IsTrue (has_quit (lines source.old)) }
    ensures replies { result ≡ Status.Done → sink.new ≡ sink.old ++ replies shelf.old.files source.old }
{
    memoise(alloc, &[], source, shelf, sink)
}
