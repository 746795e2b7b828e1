ghost use Rattle.std.specs.Prelude.{◌≡◌, ◌↔◌, ◌≢◌, ◌⊎◌, [], IfSome, IsSomeAnd, IsTrue};
ghost use Rattle.std.specs.Io.KnownBytes.{Appends, IsAtEnd};
ghost use Rattle.std.specs.Str.Lines.{lines};
ghost use Rattle.ms_outside.specs.Counts.{Rose};
ghost use Rattle.ms_session.specs.Outside.{shelf_side};
ghost use Rattle.ms_memoise.specs.Conversations.{Conversation, Exceeds, Fits, IsDoneUnlessRisen, IsTooMuchUnlessRisen, outside};
ghost use Rattle.ms_memoise.specs.Events.{has_quit, replies};

use crate::conversation::converse;
use crate::status::Status;
use ms_outside::{Shelf, Sink, Source};
use std::alloc::Global;

/// The most bytes of commands that are taken.
pub const MOST_INPUT: u32 = u32::MAX;

/// The whole program. It takes no words. It reads command lines from the source to its end or to the first
/// `quit`, runs them one after another in a session that is new, which asks the shelf for the class files
/// in them, and writes the reply to each to the sink. A line that is no command gets its refusal and
/// changes nothing. Both ends are `Done`: the source has none left, or a `quit` was run, and what was
/// taken of the source behind it belongs to no line. It takes at most 4,294,967,295 bytes, and one more
/// to see that there are too many (`TooMuchInput`), unless a `quit` is among the lines that those bytes
/// end. A fault of a device ends it at once, as `ReadFault`, `ShelfFault` or `WriteFault`; want of memory
/// ends it as `NoMemory`.
pub fn memoise<S: Source, F: Shelf, K: Sink>(
    alloc: Global,
    words: &[String],
    source: &mut S,
    shelf: &mut F,
    sink: &mut K,
) -> Status
    // Whatever the devices answer: what was read, done and written, and why it ended.
    ensures conversation { Conversation 4294967295
        (outside (S.left source.old) (S.faults source.old) (shelf_side (F.files shelf.old) (F.counts shelf.old) (F.asked shelf.old)) (K.taken sink.old) (K.faults sink.old))
        (outside (S.left source.new) (S.faults source.new) (shelf_side (F.files shelf.new) (F.counts shelf.new) (F.asked shelf.new)) (K.taken sink.new) (K.faults sink.new))
        result }

    // Status 2 comes exactly where there are words on the command line, and then nothing is touched.
    ensures usage { (result ≡ Status.Usage) ↔ (words.now ≢ []) }
    ensures untouched { result ≡ Status.Usage → (source.new ≡ source.old) × (shelf.new ≡ shelf.old) × (sink.new ≡ sink.old) }

    // Where the source and the shelf tell what they hold, the sink took the replies to the lines of
    // the input up to the first quit; and the source was read to its end, or a quit is among them.
    ensures replies { result ≡ Status.Done →
        IfSome (S.left source.old) (λ input. IfSome (F.files shelf.old) (λ files.
        Appends (K.taken sink.old) (K.taken sink.new) (replies files input))) }
    ensures end { result ≡ Status.Done → IsAtEnd (S.left source.new) ⊎ IfSome (S.left source.old) (λ input. IsTrue (has_quit (lines input))) }

    // A fault has its cause: the count of that object rose.
    ensures read_fault { result ≡ Status.ReadFault → Rose (S.faults source.old) (S.faults source.new) }
    ensures write_fault { result ≡ Status.WriteFault → Rose (K.faults sink.old) (K.faults sink.new) }
    ensures shelf_fault { result ≡ Status.ShelfFault → Rose (F.counts shelf.old).faults (F.counts shelf.new).faults }

    // Too many bytes are those above the limit, where the first ones up to the limit end no line that is a quit.
    ensures too_much { result ≡ Status.TooMuchInput → IfSome (S.left source.old) (λ input. Exceeds 4294967295 input) }
    ensures enough { result ≡ Status.Done → IfSome (S.left source.old) (λ input. Fits 4294967295 input) }

    // With no words, an input within the limit, or with such a quit, is done, and any other is too much,
    // unless memory ran out or a count of faults rose.
    ensures complete { words.now ≡ [] → IsSomeAnd (S.left source.old) (λ input. Fits 4294967295 input) → IsDoneUnlessRisen result
        (outside (S.left source.old) (S.faults source.old) (shelf_side (F.files shelf.old) (F.counts shelf.old) (F.asked shelf.old)) (K.taken sink.old) (K.faults sink.old))
        (outside (S.left source.new) (S.faults source.new) (shelf_side (F.files shelf.new) (F.counts shelf.new) (F.asked shelf.new)) (K.taken sink.new) (K.faults sink.new)) }
    ensures beyond { words.now ≡ [] → IsSomeAnd (S.left source.old) (λ input. Exceeds 4294967295 input) → IsTooMuchUnlessRisen result
        (outside (S.left source.old) (S.faults source.old) (shelf_side (F.files shelf.old) (F.counts shelf.old) (F.asked shelf.old)) (K.taken sink.old) (K.faults sink.old))
        (outside (S.left source.new) (S.faults source.new) (shelf_side (F.files shelf.new) (F.counts shelf.new) (F.asked shelf.new)) (K.taken sink.new) (K.faults sink.new)) }
{
    if !words.is_empty() {
        return Status::Usage;
    }
    converse(alloc, MOST_INPUT, source, shelf, sink)
}
