// From which places on a host has its variables for certain.
ghost use Rattle.std.specs.Prelude.{◌≡◌, length};
ghost use Rattle.pb_language.specs.Scope.{is_later, no_since};
ghost use Rattle.pb_lattice.specs.Words.{IsAscending, names_of};
ghost use Rattle.pb_hosts.specs.Tables.{every_from, names_from, since_view};

/// A name that never lasts stands at this place.
pub const NEVER: u32 = u32::MAX;

/// From which places of a play on a host has its variables for certain, if it is still active then.
#[derive(Drop)]
pub struct Lasting {
    /// For each of the names of a table the place from which on the host has it, or `NEVER`.
    pub from: Vec<u32>,
    /// The place from which on it has every name, since no way leads there; none where ways lead to
    /// the play's end.
    pub every: Option<u32>,
}

impl Lasting {
    /// Whether the host has the variable from that place on. The names are those of the table.
    pub fn has(&self, names: &[String], place: u32, name: &str) -> bool
        requires ascending { IsAscending (names_of names.now) }
        requires named { length self.now.from.items ≡ length names.now }
        ensures { result ≡ is_later (since_view (names_of names.now) self.now) place name.now }
    {
        self.lists(names, place, name) || self.has_every(place, name)
    }

    // Whether the name is listed, at that place or an earlier one.
    fn lists(&self, names: &[String], place: u32, name: &str) -> bool
        requires ascending { IsAscending (names_of names.now) }
        requires named { length self.now.from.items ≡ length names.now }
        ensures { result ≡ is_later (names_from (names_of names.now) self.now.from.items no_since)
            place name.now }
    {
        match names.binary_search_by(|known| known.as_str().cmp(name)) {
            Ok(index) => self.from[index] != NEVER && self.from[index] <= place,
            Err(_) => false,
        }
    }

    // Whether every name lasts from there on; the text of a failure never does.
    fn has_every(&self, place: u32, name: &str) -> bool
        ensures { result ≡ is_later (every_from self.now.every) place name.now }
    {
        match self.every {
            Some(from) => from <= place && name != "ansible_failed_result",
            None => false,
        }
    }
}
