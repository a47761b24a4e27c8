//! Laws of indexes.

ghost use Rattle.std.specs.Prelude.{◌≡◌, ℕ, true};
ghost use Rattle.package.specs.Index.{is_slot_count};
ghost use Rattle.package.specs.SearchLaws.{LooksOnce};

/// Where an index may have so many slots, a search looks at none of them twice.
pub fn search_laws()
    ensures law { (id unit_count slot_count : ℕ) → is_slot_count unit_count slot_count ≡ true
        → LooksOnce id slot_count }
{}
