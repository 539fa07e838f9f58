ghost use Rattle.std.specs.Prelude.{◌≡◌, [], Some, take, drop};
ghost use Rattle.mse_base.specs.declared.frame.Phase.TheVariants.{Waiting, InMedia};
ghost use Rattle.segment_walk.specs.Segments.{items_of_string, held_before, phase_before};
ghost use Rattle.segment_walk.specs.Example.{one_track, segment, segment_items, segment_reading};

/// What the definitions give for a media segment of one coded frame, also where its last byte is missing.
pub fn example_law()
    ensures items { items_of_string (Some one_track) segment ≡ segment_items }
    ensures cut { items_of_string (Some one_track) (take 89 segment) ≡ [] }
    ensures phase { phase_before (segment_reading 0) ≡ InMedia }
    ensures held { held_before (segment_reading 0) ≡ drop 8 segment }
    ensures behind { phase_before (segment_reading 2) ≡ Waiting }
    ensures nothing { held_before (segment_reading 2) ≡ [] }
{}
