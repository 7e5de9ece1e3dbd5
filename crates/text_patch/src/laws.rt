//! Laws of patches, proved from the definitions.
ghost use Rattle.std.specs.Prelude.{◌≡◌, ◌<◌, ◌≤◌, ◌^◌, ◌+◌, ◌∷◌, ℕ, List, length};
ghost use Rattle.tree_nodes.specs.Nodes.{Node, tree_depth};
ghost use Rattle.tree_nodes.specs.Blocks.{joined};
ghost use Rattle.snapshot.specs.RowMaps.{RowMap, IsRowMap, text_at};
ghost use Rattle.text_patch.specs.Marks.{marks_of};
ghost use Rattle.text_patch.specs.Parts.{parts_at, first_at};
ghost use Rattle.text_patch.specs.Patches.{patch_for, MakesText, NoTwoShareAMark};
ghost use Rattle.text_patch.specs.Steps.{steps_text};

/// The text of a node is its first byte, then its parts in order.
pub fn parts_are_the_text()
    ensures { (m : RowMap) (n : Node) → n.depth ≤ tree_depth m.format
        → text_at m n.depth n.index ≡ first_at m n ∷ joined (parts_at m n) }
{}

/// A true patch makes the partner's text, and no other: the steps that a partner writes for the marks of an asker's
/// parts turn these parts into the text of the partner's node, if no part of one has the mark of a different part of
/// the other.
pub fn a_true_patch_makes_the_partners_text()
    ensures { (own other : RowMap) (n : Node) (salt : List ℕ) (width : ℕ) → IsRowMap other → width ≤ 8 → other.format ≡ own.format
        → n.depth ≤ tree_depth own.format → length (parts_at own n) < 2 ^ 32
        → NoTwoShareAMark salt width (parts_at own n) (parts_at other n)
        → MakesText own n (steps_text (patch_for salt (marks_of salt width (parts_at own n)) 0 (parts_at other n))) (text_at other n.depth n.index) }
{}

/// Steps make at most one text.
pub fn steps_make_one_text()
    ensures { (own : RowMap) (n : Node) (steps text other : List ℕ) → MakesText own n steps text → MakesText own n steps other
        → text ≡ other }
{}

/// A text made by steps is at most as long as the local text and the steps together.
pub fn a_made_text_is_bounded()
    ensures { (own : RowMap) (n : Node) (steps text : List ℕ) → MakesText own n steps text
        → length text ≤ 1 + length (joined (parts_at own n)) + length steps }
{}
