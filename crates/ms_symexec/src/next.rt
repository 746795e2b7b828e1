ghost use Rattle.std.specs.Prelude.{IfOk, List};
ghost use Rattle.ms_linking.specs.Linked.{views_of};
ghost use Rattle.ms_machine.specs.Segments as machine;
ghost use Rattle.ms_terms.specs.declared.term.Term.{Term as Node};
ghost use Rattle.ms_terms.specs.Terms.{Term};
ghost use Rattle.ms_words.specs.declared.item.Item.{Item as Executed};
ghost use Rattle.ms_symexec.specs.Outcomes.{ComesNext, IsInOrder};
ghost use Rattle.ms_symexec.specs.Segments.{Arrives};

use crate::arriving::Arrived;
use crate::counting::end_of;
use crate::outcome::{SegmentNext, SymEnd};
use crate::segmenting::arms_at;
use ms_interpreter::{Beginning, Finish};
use ms_program::Program;
use ms_terms::TermId;
use ms_words::{Ended, NoMemory};
use std::alloc::Global;

/// What comes after a segment, and the run as it stands then.
pub(crate) fn come_next(
    alloc: Global,
    program: &Program,
    arrived: Arrived,
) -> Result<(SegmentNext, Beginning<TermId>), NoMemory>
    requires { IsInOrder (views_of program.now) arrived }
    ensures { IfOk result (λ came. (nodes : List Node) (trace : List Executed) (segment : machine.Segment Term) → Arrives nodes (views_of program.now) trace arrived segment → ComesNext nodes (views_of program.now) came.0 came.1 segment.after) }
{
    match arrived {
        Arrived::AtChoice(state) => {
            let arms = arms_at(alloc, program, &state)?;
            Ok((SegmentNext::Choice { arms }, Beginning::In(state)))
        }
        Arrived::Over(finish) => {
            let Some(end) = end_of(finish) else {
                unreachable!()
            };
            Ok((SegmentNext::End(end), Beginning::Over(Finish::Stuck)))
        }
        Arrived::Runaway => Ok((
            SegmentNext::End(SymEnd::Other(Ended::Runaway)),
            Beginning::Over(Finish::Stuck),
        )),
    }
}
