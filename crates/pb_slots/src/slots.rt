// The names that have slots.
ghost use Rattle.std.specs.Prelude.{◌≡◌, map, string_bytes, true};
ghost use Rattle.pb_template.specs.Words.{are_ascending};

/// The names that have slots, in the order of their bytes; the slot of a name is its place there.
#[derive(Drop)]
pub struct Slots {
    pub(crate) names: Vec<String>,
    ghost ascending: { are_ascending (map (λ n. string_bytes n) names.items) ≡ true },
}
