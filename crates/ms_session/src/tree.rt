ghost use Rattle.std.specs.Prelude.{◌≡◌, ◌+◌, ◌∷◌, ◌++◌, ◌≤◌, [], length, map, IfOk, OnOk};
ghost use Rattle.std.specs.Option.{option_map};
ghost use Rattle.ms_session.specs.Growing as growing;
ghost use Rattle.ms_session.specs.Growing.{grown_from, node_view, taking};

use crate::runs::Run;
use ms_trie::ChoiceString;
use ms_words::NoMemory;
use std::alloc::Global;

/// A string of the tree, and what the runs of all inputs say of it.
#[derive(Debug, Drop)]
pub struct Node<'r> {
    /// The arms of the string.
    pub string: ChoiceString,
    /// The run of the least input that takes it, if one does.
    pub least: Option<&'r Run>,
    /// Whether the least input of the string without its last arm takes that arm too.
    pub inherited: bool,
    /// Whether it is the string of the run of some input.
    pub is_path: bool,
}

/// The tree from a string on, at most `left` arms deeper, is added to the nodes: the string, and then, where
/// a choice comes, the tree of each of its two arms. `runs` are those that take the string, in the order of
/// their inputs.
#[tactic(auto, unfolding(crate::specs::Growing::grown_from))]
pub fn grow<'r>(
    alloc: Global,
    left: u16,
    string: ChoiceString,
    inherited: bool,
    runs: &[&'r Run],
    nodes: &mut Vec<Node<'r>>,
) -> Result<(), NoMemory>
    requires { length string + left ≤ 256 }
    ensures { OnOk result (map node_view nodes.new.items ≡ map node_view nodes.old.items ++ grown_from left string inherited (map (λ run. run.now) runs.now)) }
{
    let place = string.arms().len();
    let least = runs.first().copied();
    let choice = choice_at(place, least);
    if left == 0 {
        return add(string, least, inherited, any_ends(place, runs), nodes);
    }
    let Some(arm) = choice else {
        return add(string, least, inherited, any_ends(place, runs), nodes);
    };
    let first = string.with(alloc, 0)?;
    let second = string.with(alloc, 1)?;
    add(string, least, inherited, any_ends(place, runs), nodes)?;
    let takers = taking(alloc, place, 0, runs)?;
    grow(alloc, left - 1, first, arm == 0, takers.as_slice(), nodes)?;
    let takers = taking(alloc, place, 1, runs)?;
    grow(alloc, left - 1, second, arm == 1, takers.as_slice(), nodes)
}

/// Adds a node.
fn add<'r>(
    string: ChoiceString,
    least: Option<&'r Run>,
    inherited: bool,
    is_path: bool,
    nodes: &mut Vec<Node<'r>>,
) -> Result<(), NoMemory>
    ensures { OnOk result (map node_view nodes.new.items ≡ map node_view nodes.old.items ++ record { string = string; least = option_map (λ run. run.now) least.entry; inherited = inherited; path = is_path } ∷ []) }
{
    nodes.push(Node {
        string,
        least,
        inherited,
        is_path,
    })?;
    Ok(())
}

/// The choice at this place of a run.
fn choice_at(place: usize, run: Option<&Run>) -> Option<u16>
    ensures { result ≡ growing.choice_at place (option_map (λ run. run.now) run.entry) }
{
    run?.path.choices.arms().get(place).copied()
}

/// Whether one of the runs has so many choices.
fn any_ends(place: usize, runs: &[&Run]) -> bool
    ensures { result ≡ growing.any_ends place (map (λ run. run.now) runs.now) }
{
    for run in runs {
        if run.path.choices.arms().len() == place {
            return true;
        }
    }
    false
}

/// The runs whose choice at this place takes this arm.
fn taking<'r>(
    alloc: Global,
    place: usize,
    arm: u16,
    runs: &[&'r Run],
) -> Result<Vec<&'r Run>, NoMemory>
    ensures { IfOk result (λ taken. map (λ run. run.now) taken.items ≡ growing.taking place arm (map (λ run. run.now) runs.now)) }
{
    let mut taken = Vec::new(alloc);
    for run in runs {
        if takes_at(place, arm, run) {
            taken.push(*run)?;
        }
    }
    Ok(taken)
}

fn takes_at(place: usize, arm: u16, run: &Run) -> bool
    ensures { result ≡ growing.takes_at place arm run.now }
{
    run.path.choices.arms().get(place).copied() == Some(arm)
}
