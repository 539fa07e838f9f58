ghost use Rattle.std.specs.Prelude.{ℕ, ◌≡◌, ◌<◌, List, length};
ghost use Rattle.bmff_boxes.specs.Children.{child_of};
ghost use Rattle.bmff_boxes.specs.Rows.{row_by, row_in, row_of};

/// The boxes of a payload are the first and those of the bytes behind it. There are no more of them than bytes, so to
/// look for more gives the same.
pub fn row_law()
    ensures step { (bytes : List ℕ) → row_of bytes ≡ row_by row_of (child_of bytes) }
    ensures enough { (bytes : List ℕ) (boxes : ℕ) → length bytes < boxes →
        row_in boxes bytes ≡ row_of bytes }
{}
