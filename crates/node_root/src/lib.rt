// The test of a root.

#![tactic(auto)]

ghost use Rattle.std.specs.Prelude.{◌≡◌, true, ◌-◌, ◌<◌};
ghost use Rattle.model.specs.Tree.{empty_root, root_sound, sound};
ghost use Rattle.node_read.specs.Layout.{shape_of};

use model::id::NodeNo;
use node_read::store::Store;
use node_test;

// Whether node n is an empty root leaf.
#[tactic(auto, unfolding(model::specs::Tree::empty_root))]
pub fn is_empty_root(s: Store<'_>, n: NodeNo) -> bool
    requires n_lt_pool { n.0 < s.layout.pool }
    ensures { result ≡ empty_root (shape_of s.entry.layout) s.entry.words.now n.0 }
{
    let h = s.header(n);
    if !h.is_leaf() {
        return false;
    }
    if !h.is_empty() {
        return false;
    }
    if !h.starts_in_limit() {
        return false;
    }
    h.ends_at_none()
}

// Whether node n is sound as a root.
#[tactic(auto, unfolding(model::specs::Tree::root_sound))]
pub fn is_sound_root(s: Store<'_>, n: NodeNo) -> bool
    requires n_lt_pool { n.0 < s.layout.pool }
    ensures { result ≡ root_sound (shape_of s.entry.layout) s.entry.words.now n.0 }
{
    if is_empty_root(s, n) {
        return true;
    }
    let h = s.header(n);
    if !h.is_in_height() {
        return false;
    }
    node_test::is_sound(s, n, h.height, h.start_row_id, None)
}
