// The law of the places of a play, on a function that does nothing.
ghost use Rattle.pb_route.specs.Places.{PlacesAreCounted};

/// Each place of a play is counted once, at the first node that has it, with the greatest length of
/// its loop over the nodes that do.
pub fn places_are_counted()
    ensures { PlacesAreCounted }
{}
