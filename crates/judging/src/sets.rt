ghost use Rattle.std.specs.Prelude.{◌≡◌, ℕ, ◌<◌, ◌≤◌, false, ◌||◌, ◌==◌};
ghost use Rattle.model.specs.Positions.{Turns};
ghost use Rattle.judging.specs.Sets.{has_type, bit, Clear};

// A set of types below 1,024, with a bit for each. The bounds of types and levels are asked where the bits are read: a row and
// a mark have more than one number, so a struct for a number and its bound would be made at each question and be no plainer.
#[derive(Clone, Copy)]
pub struct Types {
    words: [u64; 16],
}

impl Types {
    const NONE: Types = Types { words: [0; 16] };

    fn has(&self, typed: u16) -> bool
        requires { typed < 1024 }
        ensures { result ≡ has_type self.now.words typed }
    {
        (self.words[typed as usize / 64] >> (typed % 64)) & 1 == 1
    }

    fn insert(&mut self, typed: u16)
        requires { typed < 1024 }
        ensures { (t : ℕ) → t < 1024 → has_type self.new.words t ≡ (has_type self.old.words t || t == typed) }
    {
        self.words[typed as usize / 64] |= 1 << (typed % 64);
    }
}

// A set for each level of structures, and one for what would stand below the deepest.
#[derive(Drop)]
pub struct Sets {
    levels: [Types; 65],
}

impl Sets {
    pub fn new() -> Sets
        ensures { Clear result.levels }
    {
        Sets {
            levels: [Types::NONE; 65],
        }
    }

    // Whether the type is in the set of that level.
    pub fn has(&self, level: usize, typed: u16) -> bool
        requires { (level ≤ 64) × (typed < 1024) }
        ensures { result ≡ bit self.now.levels level typed }
    {
        self.levels[level].has(typed)
    }

    // Passes a structure of that level and type: the type joins its set, and below it a new row begins.
    pub fn turn(&mut self, level: usize, typed: u16)
        requires { (level < 64) × (typed < 1024) }
        ensures { Turns 1024 (bit self.old.levels) level typed (bit self.new.levels) }
    {
        self.levels[level].insert(typed);
        self.levels[level + 1] = Types::NONE;
    }
}
