ghost use Rattle.std.specs.Prelude.{◌≡◌, IfOk};
ghost use Rattle.ms_report.specs.Rows as rows;

use crate::number::{push_input, push_string};
use ms_command::end_text;
use ms_trie::{Outcome, PathRow};
use ms_words::{Name, NoMemory};
use std::alloc::Global;

/// The text of a row: one line, ended by a line feed. `names` has the names of the program's classes by
/// their numbers.
pub fn row_text(alloc: Global, names: &[Name], row: &PathRow) -> Result<Vec<u8>, NoMemory>
    ensures { IfOk result (λ text. text.items ≡ rows.row_text names.now row.now) }
{
    match &row.outcome {
        Outcome::Undecided => {
            let mut text = Vec::from_slice(alloc, b"undecided ")?;
            push_string(alloc, &mut text, row.choices.arms())?;
            text.push(b'\n')?;
            Ok(text)
        }
        Outcome::Path { input, end } => {
            let mut text = Vec::from_slice(alloc, b"path ")?;
            push_string(alloc, &mut text, row.choices.arms())?;
            text.extend_from_slice(b" input ")?;
            push_input(alloc, &mut text, input.words())?;
            text.push(b' ')?;
            let ended = end_text(alloc, names, end)?;
            text.extend_from_slice(ended.bytes())?;
            text.push(b'\n')?;
            Ok(text)
        }
    }
}
