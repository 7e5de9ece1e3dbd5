//! Laws of node texts, proved from their definitions.
ghost use Rattle.std.specs.Prelude.{◌≡◌, ◌≢◌, ℕ, List};
ghost use Rattle.std.specs.List.{AllByRecursion};
ghost use Rattle.vclock.specs.declared.format.Format.{Format};
ghost use Rattle.version_set.specs.declared.version.Version.{Version};
ghost use Rattle.row_bytes.specs.declared.row.Row.{Row};
ghost use Rattle.row_bytes.specs.Rows.{IsRow};
ghost use Rattle.hash_tree.specs.Leaves.{AscendByKey, with_offer};
ghost use Rattle.tree_nodes.specs.Nodes.{ancestor_of};
ghost use Rattle.hash_tree.specs.Texts.{leaf_text, node_text};

/// A version of a key changes no node texts but the texts of the key's leaf and the nodes above it.
pub fn other_nodes_keep_their_texts()
    ensures { (format : Format) (leaf : List ℕ → ℕ) (rows : List Row) (key : List ℕ) (v : Version) (height index : ℕ)
        → AscendByKey rows
        → index ≢ ancestor_of height (leaf key)
        → node_text format leaf (with_offer key v rows) height index ≡ node_text format leaf rows height index }
{}

/// Leaves with equal texts have equal rows.
pub fn equal_leaf_texts_are_of_equal_rows()
    ensures { (format : Format) (rows others : List Row)
        → AllByRecursion (IsRow format) rows
        → AllByRecursion (IsRow format) others
        → leaf_text format rows ≡ leaf_text format others
        → rows ≡ others }
{}
