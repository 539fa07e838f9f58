ghost use Rattle.std.specs.Prelude.{ℕ, ◌≡◌, ◌-◌, ◌<◌, List, length};
ghost use Rattle.bmff_boxes.specs.Children.{child_of};
ghost use Rattle.sample_tables.specs.BoxPlaces.{box_places, places_by, places_in};

/// The places of the boxes that stand in bytes: the first, and those of the bytes behind it. There are no more boxes
/// than bytes, so to look for more gives the same.
pub fn box_places_law()
    ensures step { (bytes : List ℕ) (total boxes : ℕ) → length bytes < boxes →
        places_in boxes total bytes
        ≡ places_by (places_in boxes total) total (total - length bytes) (child_of bytes) }
    ensures enough { (bytes : List ℕ) (boxes : ℕ) → length bytes < boxes →
        places_in boxes (length bytes) bytes ≡ box_places bytes }
{}
