// A reading of the whole tree: its first unsound node, or how many nodes, leaves and entries it has. With ends, a branch
// whose end is wrong is taken for unsound.

#![tactic(auto)]

ghost use Rattle.std.specs.Prelude.{◌≡◌, true, false, [], ◌∷◌, ◌+◌, ◌-◌, ◌<◌};
ghost use Rattle.model.specs.Words.{height};
ghost use Rattle.model.specs.Reading.{root_visits};
ghost use Rattle.model.specs.Paths.{entered};
ghost use Rattle.node_read.specs.Layout.{shape_of};
ghost use Rattle.node_test.specs.Test.{limit_of};
ghost use Rattle.tree_turn.specs.Left.{Valid, below};
ghost use Rattle.tree_turn.specs.Turn.{out_of};
ghost use Rattle.tree_tally.specs.Tally.{no_counts, tally};
ghost use Rattle.tree_survey.specs.Ends.{wrong_end, with_ends, wrong_of};

use model::answer::UnsoundNode;
use model::id::{NodeNo, RowID};
use node_read::layout::Layout;
use node_read::store::Store;
use node_root;
use node_test;
use tree_limit;
use tree_tally;
use tree_tally::Counts;
use tree_turn::walk::TreeWalk;

// The reading without ends and the one with ends, made in one walk.
#[derive(Clone, Copy)]
pub struct Surveys {
    pub nodes: Result<Counts, UnsoundNode>,
    pub ends: Result<Counts, UnsoundNode>,
}

// The first branch whose end is wrong, once sound node n was looked at. Number P stands for none: with an Option, two words that
// are kept from turn to turn, the full check took 5 % longer at C = 2.
#[tactic(auto, unfolding(crate::specs::Ends::wrong_end, crate::specs::Ends::wrong_of))]
fn look_at_end(s: Store<'_>, n: NodeNo, next: Option<RowID>, wrong: NodeNo) -> NodeNo
    requires n_lt_pool { n.0 < s.layout.pool }
    ensures { wrong_of s.entry.layout.pool result.0 ≡ wrong_end (shape_of s.entry.layout) s.entry.words.now n.0 (limit_of next) (wrong_of s.entry.layout.pool wrong.0) }
{
    let h = s.header(n);
    if tree_limit::end_fits(h.height, next, h.end_row_id) {
        return wrong;
    }
    if s.layout.has_node(wrong) {
        return wrong;
    }
    n
}

// Both readings, by the one without ends and the first wrong end before its last node.
#[tactic(auto, unfolding(crate::specs::Ends::wrong_of))]
fn both(l: Layout, nodes: Result<Counts, UnsoundNode>, wrong: NodeNo) -> Surveys
    ensures nodes { result.nodes ≡ nodes }
    ensures ends { result.ends ≡ with_ends (wrong_of l.pool wrong.0) nodes }
{
    if !l.has_node(wrong) {
        return Surveys { nodes, ends: nodes };
    }
    Surveys {
        nodes,
        ends: Err(UnsoundNode(wrong)),
    }
}

// What is left below a node that was entered, with the counts and the first wrong end so far. The walk is changed in
// place: a copy of its path for each node would cost more than the node's test.
#[tactic(auto, using(crate::proofs::WithEnds::below_turns))]
fn survey_below(s: Store<'_>, node: NodeNo, first: u64, start: Counts, seen: NodeNo) -> Surveys
    requires valid { Valid (shape_of s.layout) s.layout.pool s.words.now (height (shape_of s.layout) s.words.now node.0) (entered node.0 ∷ []) }
    requires first_value { first ≡ out_of (shape_of s.layout) s.layout.pool s.words.now (height (shape_of s.layout) s.words.now node.0) node.0 }
    ensures nodes { result.nodes ≡ tally (shape_of s.entry.layout) s.entry.words.now (below false (shape_of s.entry.layout) s.entry.layout.pool s.entry.words.now node.0) start }
    ensures ends { result.ends ≡ with_ends (wrong_of s.entry.layout.pool seen.0) (tally (shape_of s.entry.layout) s.entry.words.now (below true (shape_of s.entry.layout) s.entry.layout.pool s.entry.words.now node.0) start) }
{
    let mut walk = TreeWalk::rooted(node, first);
    // so it stands already: seen here, it is not read from memory at each turn
    walk.path.depth = 1;
    let mut counts = start;
    let mut wrong = seen;
    // up and down the tree: no index is counted
    while !walk.is_over() {
        match walk.turn(s) {
            Err(u) => return both(s.layout, Err(u), wrong),
            Ok(None) => {}
            Ok(Some(down)) => {
                counts = tree_tally::count_node(s, down.child, counts);
                wrong = look_at_end(s, down.child, down.next, wrong);
            }
        }
    }
    both(s.layout, Ok(counts), wrong)
}

// Both readings of the whole tree from the root of an open store.
#[tactic(auto, using(crate::proofs::FromRoot::from_root, crate::proofs::WithEnds::both_roots))]
pub fn survey_both(s: Store<'_>, root: NodeNo) -> Surveys
    requires root_lt_pool { root.0 < s.layout.pool }
    ensures nodes { result.nodes ≡ tally (shape_of s.entry.layout) s.entry.words.now (root_visits false (shape_of s.entry.layout) s.entry.layout.pool s.entry.words.now root.0) no_counts }
    ensures ends { result.ends ≡ tally (shape_of s.entry.layout) s.entry.words.now (root_visits true (shape_of s.entry.layout) s.entry.layout.pool s.entry.words.now root.0) no_counts }
{
    let none = NodeNo(s.layout.pool);
    let zero = Counts {
        nodes: 0,
        leaves: 0,
        entries: 0,
    };
    if node_root::is_empty_root(s, root) {
        return both(s.layout, Ok(tree_tally::count_node(s, root, zero)), none);
    }
    let h = s.header(root);
    if !h.is_in_height() {
        return both(s.layout, Err(UnsoundNode(root)), none);
    }
    let Some(first) = node_test::test_node(s, root, h.height, h.start_row_id, None) else {
        return both(s.layout, Err(UnsoundNode(root)), none);
    };
    let counts = tree_tally::count_node(s, root, zero);
    let wrong = look_at_end(s, root, None, none);
    // nothing stands below a leaf: no walk is built
    if h.is_leaf() {
        return both(s.layout, Ok(counts), wrong);
    }
    survey_below(s, root, first, counts, wrong)
}

// One reading.
pub fn survey_tree(s: Store<'_>, ends: bool, root: NodeNo) -> Result<Counts, UnsoundNode>
    requires root_lt_pool { root.0 < s.layout.pool }
    ensures { result ≡ tally (shape_of s.entry.layout) s.entry.words.now (root_visits ends (shape_of s.entry.layout) s.entry.layout.pool s.entry.words.now root.0) no_counts }
{
    let surveys = survey_both(s, root);
    if ends {
        return surveys.ends;
    }
    surveys.nodes
}
