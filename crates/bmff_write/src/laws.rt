//! What follows from the definitions: a function that does nothing, with the law as its contract.

ghost use Rattle.std.specs.Prelude.{◌≡◌, ◌+◌, ◌<◌, ◌^◌, ℕ, List, ◌∷◌, ◌++◌, length, Some};
ghost use Rattle.bmff_boxes.specs.Rows.{BoxView, row_of};
ghost use Rattle.bmff_write.specs.Boxes.{box_bytes};

/// A box that was written reads back, in front of any row of boxes.
pub fn row_law()
    ensures { (kind payload rest : List ℕ) (row : List BoxView) → length kind ≡ 4 →
        8 + length payload < 2 ^ 32
        → row_of rest ≡ Some row
        → row_of (box_bytes kind payload ++ rest)
        ≡ Some (record { kind = kind; payload = payload } ∷ row) }
{}
