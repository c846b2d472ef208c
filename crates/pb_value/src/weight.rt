// How large and how deep a value or a kind is; what it shares counts as often as it stands there.
ghost use Rattle.std.specs.Prelude.{◌&&◌, ◌+◌, ◌/◌, ◌<◌, ◌^◌, ◌≡◌, ◌≤◌, IfOk, IsOk, nat_eq, nat_le};
ghost use Rattle.std.specs.Prelude.{nat_lt};
ghost use Rattle.pb_semantics.specs.Words.{most_weight_levels};
ghost use Rattle.pb_value.specs.Weights.{IsWithin, above, both, leaf, names_weight, nothing};
ghost use Rattle.pb_value.specs.Weights.{text_weight};

use std::alloc::AllocError;
use std::ops::Deref;

// How many lists and records nest at most.
const MOST_LEVELS: u32 = 512;

/// The leaves, with a 64th of the bytes of texts and names, and how many lists and records nest.
#[derive(Clone, Copy)]
pub struct Weight {
    leaves: u64,
    levels: u32,
}

impl Weight {
    /// Of no parts.
    pub fn nothing() -> Weight
        ensures { result ≡ nothing }
    {
        Weight {
            leaves: 0,
            levels: 0,
        }
    }

    /// Of a value or a kind without parts and texts.
    pub fn leaf() -> Weight
        ensures { result ≡ leaf }
    {
        Weight {
            leaves: 1,
            levels: 0,
        }
    }

    /// Of a text, or of a field's name, of so many bytes.
    pub fn of_text(bytes: usize) -> Weight
        ensures { result ≡ text_weight bytes }
    {
        Weight {
            leaves: 1 + bytes as u64 / 64,
            levels: 0,
        }
    }

    /// Of so many names of hosts.
    pub fn of_names(names: usize) -> Weight
        requires { names < 2 ^ 63 }
        ensures { result ≡ names_weight names }
    {
        Weight {
            leaves: 1 + names as u64,
            levels: 0,
        }
    }

    /// Whether its leaves are fewer than an eighth of the other's.
    pub fn is_light_beside(self, other: Weight) -> bool
        ensures { result ≡ nat_lt self.leaves (other.leaves / 8) }
    {
        self.leaves < other.leaves / 8
    }

    /// Whether at most so many lists and records nest.
    pub fn is_within(self, levels: u32) -> bool
        ensures { result ≡ nat_le self.levels levels }
    {
        self.levels <= levels
    }

    /// Whether both have as many leaves and levels.
    pub fn is(self, other: Weight) -> bool
        ensures { result ≡ (nat_eq self.leaves other.leaves && nat_eq self.levels other.levels) }
    {
        self.leaves == other.leaves && self.levels == other.levels
    }

    /// The weight of both, unless it is past the most.
    ///
    /// # Errors
    ///
    /// Where its leaves are more than that.
    pub fn with(self, part: Weight, most: u64) -> Result<Weight, AllocError>
        ensures sum { IfOk result (λ w. w ≡ both self part) }
        ensures within { IfOk result (λ w. w.leaves ≤ most) }
        ensures fits { self.leaves + part.leaves ≤ most → IsOk result }
    {
        if self.leaves > most || part.leaves > most - self.leaves {
            return Err(AllocError);
        }
        Ok(Weight {
            leaves: self.leaves + part.leaves,
            levels: self.levels.max(part.levels),
        })
    }

    /// The weight of a list or a record whose parts have this weight, unless it is past the most.
    ///
    /// # Errors
    ///
    /// Where its leaves are more than that, or its levels more than 512.
    pub fn nest(self, most: u64) -> Result<Weight, AllocError>
        ensures sum { IfOk result (λ w. w ≡ above self) }
        ensures within { IfOk result (λ w. IsWithin most w) }
        ensures fits { self.leaves < most → self.levels < most_weight_levels → IsOk result }
    {
        if self.leaves >= most || self.levels >= MOST_LEVELS {
            return Err(AllocError);
        }
        Ok(Weight {
            leaves: self.leaves + 1,
            levels: self.levels + 1,
        })
    }
}

/// The parts of a list or a record beside their weight.
#[derive(Clone, Drop)]
pub struct Weighed<T> {
    weight: Weight,
    parts: T,
}

impl<T> Weighed<T> {
    /// Parts of that weight.
    pub fn new(weight: Weight, parts: T) -> Weighed<T>
        ensures weight { result.weight ≡ weight }
        ensures parts { result.parts ≡ parts }
    {
        Weighed { weight, parts }
    }

    /// What they weigh.
    pub fn weight(&self) -> Weight
        ensures { result ≡ self.now.weight }
    {
        self.weight
    }

    /// The parts alone.
    pub fn into_parts(self) -> T
        ensures { result ≡ self.parts }
    {
        self.parts
    }
}

impl<T> Deref for Weighed<T> {
    type Target = T;

    ghost deref_gives = { λ w v. v ≡ w.parts };

    #[inline]
    fn deref(&self) -> &T
        ensures { result.now ≡ self.now.parts }
    {
        &self.parts
    }
}
