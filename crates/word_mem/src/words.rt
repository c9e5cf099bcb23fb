//! The contract of a memory of words.
ghost use Rattle.std.specs.Prelude.{◌≡◌, ◌+◌, ◌<◌, ℕ, length};
ghost use Rattle.word_mem.specs.declared.event.WordEvent.TheVariants.{Load, Store, Exchange, FetchAdd, FetchSub};
ghost use Rattle.word_mem.specs.Held.{Held, Place, born, did, makes, joins, IsWhole, HasMerge};

/// A list of spares of a memory.
pub type SpareList<W> = Vec<<W as Words>::Spare>;

/// A memory of words, reached by passes. A pass means what it holds and how many calls it has left.
pub trait Words {
    /// The right to make calls, which one thread has at a time.
    type Pass;
    /// A pass to come.
    type Spare;

    // Which memory it is. Its opening words are as many as it has.
    ghost place: { Self → Place };

    // The pass is one of this memory.
    ghost belongs: { Place → Self.Pass → Type 0 };

    // The spare is one of this memory.
    ghost spares: { Place → Self.Spare → Type 0 };

    ghost held: { Self.Pass → Held };

    ghost left: { Self.Pass → ℕ };

    ghost number: { Self.Spare → ℕ };

    ghost calls: { Self.Spare → ℕ };

    /// Answers the word at the address.
    fn load(&self, pass: &mut Self::Pass, at: u32) -> u64
        requires within { at < length (place self.now).opening }
        requires calls { 0 < left pass.old }
        requires belongs { belongs (place self.now) pass.old }
        ensures held { held pass.new ≡ did (held pass.old) (Load at result) }
        ensures left { left pass.new + 1 ≡ left pass.old }
        ensures belongs { belongs (place self.now) pass.new };

    /// Writes a word at the address.
    fn store(&self, pass: &mut Self::Pass, at: u32, word: u64)
        requires within { at < length (place self.now).opening }
        requires calls { 0 < left pass.old }
        requires belongs { belongs (place self.now) pass.old }
        ensures held { held pass.new ≡ did (held pass.old) (Store at word) }
        ensures left { left pass.new + 1 ≡ left pass.old }
        ensures belongs { belongs (place self.now) pass.new };

    /// Writes the new word where it finds the old one, and answers what it found.
    fn compare_exchange(&self, pass: &mut Self::Pass, at: u32, old: u64, new: u64) -> u64
        requires within { at < length (place self.now).opening }
        requires calls { 0 < left pass.old }
        requires belongs { belongs (place self.now) pass.old }
        ensures held { held pass.new ≡ did (held pass.old) (Exchange at old new result) }
        ensures left { left pass.new + 1 ≡ left pass.old }
        ensures belongs { belongs (place self.now) pass.new };

    /// Adds to the word, which wraps, and answers what it found.
    fn fetch_add(&self, pass: &mut Self::Pass, at: u32, n: u64) -> u64
        requires within { at < length (place self.now).opening }
        requires calls { 0 < left pass.old }
        requires belongs { belongs (place self.now) pass.old }
        ensures held { held pass.new ≡ did (held pass.old) (FetchAdd at n result) }
        ensures left { left pass.new + 1 ≡ left pass.old }
        ensures belongs { belongs (place self.now) pass.new };

    /// Subtracts from the word, which wraps, and answers what it found.
    fn fetch_sub(&self, pass: &mut Self::Pass, at: u32, n: u64) -> u64
        requires within { at < length (place self.now).opening }
        requires calls { 0 < left pass.old }
        requires belongs { belongs (place self.now) pass.old }
        ensures held { held pass.new ≡ did (held pass.old) (FetchSub at n result) }
        ensures left { left pass.new + 1 ≡ left pass.old }
        ensures belongs { belongs (place self.now) pass.new };

    /// Gives a new pass, which has the number and the calls of the spare.
    fn split(&self, pass: &mut Self::Pass, spare: Self::Spare) -> Self::Pass
        requires belongs { belongs (place self.now) pass.old }
        requires spare { spares (place self.now) spare }
        ensures held { held pass.new ≡ makes (held pass.old) (number spare) }
        ensures left { left pass.new ≡ left pass.old }
        ensures belongs { belongs (place self.now) pass.new }
        ensures made { held result ≡ born (number spare) }
        ensures calls { left result ≡ calls spare }
        ensures made_belongs { belongs (place self.now) result };

    /// Takes in another pass with all that it holds.
    fn join(&self, pass: &mut Self::Pass, other: Self::Pass)
        requires belongs { belongs (place self.now) pass.old }
        requires other { belongs (place self.now) other }
        ensures held { held pass.new ≡ joins (held pass.old) (held other) }
        ensures left { left pass.new ≡ left pass.old }
        ensures belongs { belongs (place self.now) pass.new };

    // The lists of a pass that is whole have a legal merge.
    ghost merged: { (at : Place) (p : Self.Pass) → belongs at p → IsWhole (held p) → HasMerge at.opening (held p) };
}

/// The lists that a whole pass holds have a legal merge, as a call for code that can't cite the law.
pub fn law_merged<W: Words>(words: &W, pass: &W::Pass)
    requires belongs { W.belongs (W.place words.now) pass.now }
    requires whole { IsWhole (W.held pass.now) }
    ensures { HasMerge (W.place words.now).opening (W.held pass.now) }
{}
