ghost use Rattle.std.specs.Prelude.{◌≡◌, ◌∷◌, ◌++◌, [], map, IfOk, OnOk, Some};
ghost use Rattle.ms_session.specs.Growing.{node_view};
ghost use Rattle.ms_session.specs.Walking as walking;
ghost use Rattle.ms_session.specs.Walking.{walk, rows_of};

use crate::known::Known;
use crate::runs::Run;
use crate::tree::Node;
use ms_trie::{ChoiceString, Outcome, PathRow};
use ms_words::NoMemory;
use std::alloc::Global;

/// How many strings were settled, and how many asks that took.
#[derive(Clone, Copy, Debug, PartialEq, Eq)]
pub struct Counts {
    pub settled: u32,
    pub asks: u32,
}

/// Settles the nodes that need it, in order, up to `most`.
#[tactic(auto, unfolding(crate::specs::Walking::walk))]
pub fn explore(
    alloc: Global,
    nodes: &[Node<'_>],
    most: u32,
    known: &mut Known,
) -> Result<Counts, NoMemory>
    ensures known { OnOk result (known.new ≡ (walk most known.old (map node_view nodes.now)).known) }
    ensures counts { IfOk result (λ counts. counts ≡ record { settled = (walk most known.old (map node_view nodes.now)).settled; asks = (walk most known.old (map node_view nodes.now)).asks }) }
{
    let mut settled = 0u32;
    let mut asks = 0u32;
    for node in nodes {
        if settled == most {
            return Ok(Counts { settled, asks });
        }
        if known.is_open(node) {
            if known.lacks_verdict(&node.string) && !node.inherited {
                asks += 1;
            }
            known.close(alloc, node)?;
            settled += 1;
        }
    }
    Ok(Counts { settled, asks })
}

/// The rows of the nodes that are paths.
pub fn rows(alloc: Global, nodes: &[Node<'_>]) -> Result<Vec<PathRow>, NoMemory>
    ensures { IfOk result (λ rows. rows.items ≡ rows_of (map node_view nodes.now)) }
{
    let mut rows = Vec::new(alloc);
    for node in nodes {
        add_row(alloc, node, &mut rows)?;
    }
    Ok(rows)
}

/// Adds the row of a node, where it is a path.
fn add_row(alloc: Global, node: &Node<'_>, rows: &mut Vec<PathRow>) -> Result<(), NoMemory>
    ensures { OnOk result (rows.new.items ≡ rows.old.items ++ rows_of (node_view node.now ∷ [])) }
{
    if !node.is_path {
        return Ok(());
    }
    let Some(run) = node.least else {
        return Ok(());
    };
    rows.push(row(alloc, &node.string, run)?)?;
    Ok(())
}

/// The row of a string that this run has.
fn row(alloc: Global, string: &ChoiceString, run: &Run) -> Result<PathRow, NoMemory>
    ensures { IfOk result (λ row. walking.row_of_run string.now (Some run.now) ≡ Some row) }
{
    let outcome = Outcome::Path {
        input: run.input,
        end: run.path.end.copy(alloc)?,
    };
    Ok(PathRow {
        choices: string.copy(alloc)?,
        outcome,
    })
}
