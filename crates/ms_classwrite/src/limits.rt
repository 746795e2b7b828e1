ghost use Rattle.std.specs.Prelude.{◌≡◌};
ghost use Rattle.std.specs.List.{list_any};
ghost use Rattle.ms_classwrite.specs.Layout.{has_too_many, is_long, is_long_line};
ghost use Rattle.ms_classwrite.specs.Lines.{line_view};

use crate::lines::{Line, Lines};
use crate::{ClassPlan, PlanMethod};

/// The most entries of a pool: its count, which is one more, has two bytes.
pub const MAX_ENTRIES: usize = 65_534;
/// The most that two bytes count.
const MAX_LENGTH: usize = 65_535;
/// The most bytes of a file.
pub const MAX_FILE: usize = 1_048_576;

fn is_long(bytes: &[u8]) -> bool
    ensures { result ≡ is_long bytes.now }
{
    bytes.len() > MAX_LENGTH
}

/// Whether the line is a text that is too long.
fn is_long_line(line: Line<'_>) -> bool
    ensures { result ≡ is_long_line (line_view line.entry) }
{
    match line {
        Line::Utf8(text) => is_long(text),
        _ => false,
    }
}

fn has_long_text(lines: &[Line<'_>]) -> bool
    ensures { result ≡ list_any (λ line. is_long_line (line_view line)) lines.now }
{
    lines.iter().any(|line| is_long_line(*line))
}

#[tactic(auto, using(crate::proofs::Same::any_viewed))]
fn has_long_line(lines: &Lines<'_>) -> bool
    ensures { result ≡ list_any is_long_line lines.now }
{
    has_long_text(lines.all())
}

fn has_long_code(methods: &[PlanMethod]) -> bool
    ensures { result ≡ list_any (λ method. is_long method.code) methods.now }
{
    methods.iter().any(|method| is_long(method.code.get()))
}

/// Whether there are too many entries, fields or methods, or too long a text or code.
#[tactic(auto, unfolding(crate::specs::Layout::has_too_many))]
pub fn has_too_many(lines: &Lines<'_>, plan: &ClassPlan) -> bool
    ensures { result ≡ has_too_many lines.now plan.now }
{
    lines.len() > MAX_ENTRIES
        || plan.fields().len() > MAX_LENGTH
        || plan.methods().len() > MAX_LENGTH
        || has_long_line(lines)
        || has_long_code(plan.methods())
}
