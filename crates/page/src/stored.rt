// The words of what a block can hold.
ghost use Rattle.std.specs.Prelude.{◌≡◌, ℕ, ◌≤◌, List, length};

// A value that a block of 32 words or more can hold.
pub trait Stored: Drop {
    // The words of a value, in a block of so many words.
    ghost words_of: { ℕ → Self → List ℕ };

    // What a value must keep to be written.
    ghost storable: { Self → Type 0 };

    // Writes the words of the value.
    fn encode(&self, out: &mut [u32])
        requires wide { 32 ≤ length out.old }
        requires storable { storable self.now }
        ensures { out.new ≡ words_of (length out.old) self.now };
}
