//! A law of versions, proved from their definitions.
ghost use Rattle.std.specs.Prelude.{◌↔◌, List, IsTrue};
ghost use Rattle.std.specs.List.{AllByRecursion};
ghost use Rattle.vclock.specs.Clock.{IsClock};
ghost use Rattle.version_set.specs.declared.version.Version.{Version};
ghost use Rattle.version_set.specs.Version.{covered, IsCovered};

/// A version is covered by versions if it is one of them or its clock is before one of theirs.
pub fn covered_versions_are_members_or_below_one()
    ensures { (v : Version) (members : List Version) → IsClock v.clock
        → AllByRecursion (λ (w : Version). IsClock w.clock) members
        → IsTrue (covered v members) ↔ IsCovered v members }
{}
