ghost use Rattle.std.specs.Prelude.{◌≡◌, ◌≤◌, [], None};
ghost use Rattle.ms_machine.specs.Tests as tests;
ghost use Rattle.ms_interpreter.specs.Asking.{asked_of};
ghost use Rattle.ms_interpreter.specs.Leads.{finish_of};
ghost use Rattle.ms_interpreter.specs.Symbols.{symbol, symbols};
ghost use Rattle.ms_interpreter.specs.declared.finish.Finish.TheVariants as finishes;
ghost use Rattle.ms_terms.specs.declared.term.Term.{Term as Node};
ghost use Rattle.std.specs.Prelude.{List, IfSome};
ghost use Rattle.ms_symexec.specs.Outcomes.{ends_as};

use crate::outcome::SymEnd;
use ms_interpreter::{Asked, Finish};
use ms_terms::TermId;
use ms_words::Ended;

/// How many arms a test has.
pub(crate) fn arms_of(asked: &Asked<'_, TermId>) -> u32
    requires { tests.arms_of (asked_of symbols (symbol []) asked.now) ≤ 65535 }
    ensures { result ≡ tests.arms_of (asked_of symbols (symbol []) asked.now) }
{
    match asked {
        Asked::Compares(..) | Asked::ComparesZero(..) | Asked::Divides(_) => 2,
        Asked::Selects(_, switch) => switch.cases().len() as u32 + 1,
        Asked::Indexes(_, len) => *len as u32 + 1,
    }
}

/// How a run ends by itself, in the words of callers; none where no rule applies.
pub(crate) fn end_of(finish: Finish<TermId>) -> Option<SymEnd>
    ensures is { IfSome result (λ end. (nodes : List Node) → ends_as nodes end ≡ finish_of (symbol nodes) finish) }
    ensures none { result ≡ None → finish ≡ finishes.Stuck }
{
    match finish {
        Finish::Returned(id) => Some(SymEnd::Returned(id)),
        Finish::ReturnedVoid => Some(SymEnd::Other(Ended::ReturnedVoid)),
        Finish::Threw(class) => Some(SymEnd::Other(Ended::Threw(class))),
        Finish::InitFailed(class) => Some(SymEnd::Other(Ended::InitFailed(class))),
        Finish::Missing(name) => Some(SymEnd::Other(Ended::Missing(name))),
        Finish::Deep => Some(SymEnd::Other(Ended::Deep)),
        Finish::SymLength => Some(SymEnd::Other(Ended::SymLength)),
        Finish::HeapFull => Some(SymEnd::Other(Ended::HeapFull)),
        Finish::Stuck => None,
    }
}
