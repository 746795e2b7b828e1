ghost use Rattle.std.specs.Prelude.{◌≡◌, ◌<◌, map, ◌&&◌, ◌||◌, is_some, OnOk};
ghost use Rattle.ms_session.specs.Growing.{node_view};
ghost use Rattle.ms_session.specs.Known as known;
ghost use Rattle.ms_session.specs.Walking as walking;

use crate::tree::Node;
use ms_trie::ChoiceString;
use ms_words::NoMemory;
use std::alloc::Global;
use std::collections::BTreeSet;
use std::marker::Model;

/// What is known of the strings of a program: which nonempty strings have a verdict, and which have a
/// segment.
#[derive(Debug, Drop)]
pub struct Known {
    verdicts: BTreeSet<ChoiceString>,
    segments: BTreeSet<ChoiceString>,
}

impl Model for Known {
    ghost use Rattle.ms_session.specs.Known as known;

    ghost Value = { known.Known };

    ghost view = { λ all. record { verdicts = all.verdicts.keys; segments = all.segments.keys } };
}

impl Known {
    /// Nothing is known. It takes no memory.
    pub fn new(alloc: Global) -> Known
        ensures { result ≡ known.nothing_known }
    {
        Known {
            verdicts: BTreeSet::new(alloc),
            segments: BTreeSet::new(alloc),
        }
    }

    /// Whether the verdict of a nonempty string is to be found.
    pub fn lacks_verdict(&self, string: &ChoiceString) -> bool
        ensures { result ≡ known.lacks_verdict self.now string.now }
    {
        !string.arms().is_empty() && !self.verdicts.contains(string)
    }

    fn lacks_segment(&self, node: &Node<'_>) -> bool
        ensures { result ≡ walking.lacks_segment self.now (node_view node.now) }
    {
        node.least.is_some() && !self.segments.contains(&node.string)
    }

    /// Whether a node isn't settled: its verdict, or its segment, is to be found.
    pub fn is_open(&self, node: &Node<'_>) -> bool
        ensures { result ≡ walking.is_open self.now (node_view node.now) }
    {
        self.lacks_verdict(&node.string) || self.lacks_segment(node)
    }

    /// Settles a node: makes known its verdict, where its string isn't empty, and its segment, where some
    /// input takes it.
    pub fn close(&mut self, alloc: Global, node: &Node<'_>) -> Result<(), NoMemory>
        ensures { OnOk result (self.new ≡ walking.closed self.old (node_view node.now)) }
    {
        if !node.string.arms().is_empty() {
            self.verdicts.insert(node.string.copy(alloc)?)?;
        }
        if node.least.is_some() {
            self.segments.insert(node.string.copy(alloc)?)?;
        }
        Ok(())
    }

    /// Whether a string still needs settling.
    pub fn is_unfinished(&self, nodes: &[Node<'_>]) -> bool
        ensures { result ≡ walking.any_open self.now (map node_view nodes.now) }
    {
        for node in nodes {
            if self.is_open(node) {
                return true;
            }
        }
        false
    }
}
