//! A law of row maps, proved from the definition of their leaves.
ghost use Rattle.std.specs.Prelude.{◌≡◌};
ghost use Rattle.hash_tree.specs.Leaves.{AscendByKey};
ghost use Rattle.snapshot.specs.RowMaps.{RowMap};
ghost use Rattle.snapshot.specs.Snapshots.{leaves_of, map_of};

/// The leaves of a row map make an equal row map.
pub fn leaves_make_their_row_map()
    ensures { (m : RowMap) → AscendByKey m.rows → map_of m.format m.bits m.range (leaves_of m) ≡ m }
{}
