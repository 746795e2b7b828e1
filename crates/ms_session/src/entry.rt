ghost use Rattle.std.specs.Prelude.{◌≡◌, ◌≤◌, IsTrue, true, false, is_some, map, IfOk, MatchOption, OnOk, []};
ghost use Rattle.std.specs.List.{list_all};
ghost use Rattle.ms_classfile.specs.Found.{view};
ghost use Rattle.ms_classfile.specs.ThinFile.{IsThinMethod};
ghost use Rattle.ms_jvm.specs.Programs.{program_of};
ghost use Rattle.ms_session.specs.Growing.{grown_from, node_view};
ghost use Rattle.ms_session.specs.Known as known_words;
ghost use Rattle.ms_session.specs.Paths as paths;
ghost use Rattle.ms_session.specs.Paths.{first_of};
ghost use Rattle.ms_session.specs.States.{is_boolean};
ghost use Rattle.ms_session.specs.Steps.{is_unfinished};

use crate::exploring::{explore, rows};
use crate::known::Known;
use crate::runs::{Run, all_runs};
use crate::tree::{Node, grow};
use ms_classfile::ThinMethod;
use ms_jvm::thin_methods_end;
use ms_trie::{ChoiceString, PathRow};
use ms_words::NoMemory;
use std::alloc::Global;

/// How far an exploration came.
#[derive(Clone, Copy, Debug, PartialEq, Eq)]
pub struct Exploration {
    /// How many strings were settled.
    pub settled: u32,
    /// How often settling them asks.
    pub asks: u32,
    /// Whether a string still needs settling.
    pub unfinished: bool,
}

/// Settles the first strings of an entry that need it, up to `most`, to a depth of at most 256.
pub fn explore_entry(
    alloc: Global,
    method: &ThinMethod<'_>,
    depth: u16,
    most: u32,
    known: &mut Known,
) -> Result<Exploration, NoMemory>
    requires thin { IsThinMethod (view method.now) }
    requires booleans { IsTrue (list_all is_boolean method.now.kinds) }
    requires depth { depth ≤ 256 }
    ensures known { OnOk result (known.new ≡ (known_words.explore (program_of (view method.now)) depth most known.old).known) }
    ensures settled { IfOk result (λ explored. explored.settled ≡ (known_words.explore (program_of (view method.now)) depth most known.old).settled) }
    ensures asks { IfOk result (λ explored. explored.asks ≡ (known_words.explore (program_of (view method.now)) depth most known.old).asks) }
    ensures how { IfOk result (λ explored. explored.unfinished ≡ is_unfinished (program_of (view method.now)) depth known.new) }
{
    thin_methods_end();
    let runs = all_runs(alloc, method, depth)?;
    let nodes = all_nodes(alloc, runs.as_slice(), depth)?;
    let counts = explore(alloc, nodes.as_slice(), most, known)?;
    let unfinished = known.is_unfinished(nodes.as_slice());
    Ok(Exploration {
        settled: counts.settled,
        asks: counts.asks,
        unfinished,
    })
}

/// The rows of the report of an entry to a depth of at most 256, or `None` where a string still needs
/// settling.
pub fn report_entry(
    alloc: Global,
    method: &ThinMethod<'_>,
    depth: u16,
    known: &Known,
) -> Result<Option<Vec<PathRow>>, NoMemory>
    requires thin { IsThinMethod (view method.now) }
    requires booleans { IsTrue (list_all is_boolean method.now.kinds) }
    requires depth { depth ≤ 256 }
    ensures { IfOk result (λ found. MatchOption found
        (is_unfinished (program_of (view method.now)) depth known.now ≡ true)
        (λ rows. (is_unfinished (program_of (view method.now)) depth known.now ≡ false) × (rows.items ≡ paths.report (program_of (view method.now)) depth))) }
{
    thin_methods_end();
    let runs = all_runs(alloc, method, depth)?;
    let nodes = all_nodes(alloc, runs.as_slice(), depth)?;
    if known.is_unfinished(nodes.as_slice()) {
        return Ok(None);
    }
    Ok(Some(rows(alloc, nodes.as_slice())?))
}

/// The nodes of the tree to a depth of at most 256, grown from the runs of all inputs.
fn all_nodes<'r>(alloc: Global, runs: &'r [Run], depth: u16) -> Result<Vec<Node<'r>>, NoMemory>
    requires { depth ≤ 256 }
    ensures { IfOk result (λ nodes. map node_view nodes.items ≡ grown_from depth [] (is_some (first_of runs.now)) runs.now) }
{
    let mut takers = Vec::new(alloc);
    for run in runs {
        takers.push(run)?;
    }
    let mut nodes = Vec::new(alloc);
    let some = !runs.is_empty();
    grow(
        alloc,
        depth,
        ChoiceString::new(alloc),
        some,
        takers.as_slice(),
        &mut nodes,
    )?;
    Ok(nodes)
}
