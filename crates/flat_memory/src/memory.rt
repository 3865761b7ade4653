ghost use Rattle.std.specs.Prelude.{◌≡◌, ℕ, ◌%◌, IsTrue};
ghost use Rattle.scale_base.specs.Layout.{Layout};
ghost use Rattle.scale_base.specs.Layout as rules;
ghost use Rattle.scale_base.specs.State.{with_byte, with_word, word_at};

/// A byte at each address, and the rules of who may use it, which nothing changes. The rules are those for instructions
/// outside the keyed segment, and without the window.
pub trait Memory {
    ghost bytes: { Self → ℕ → ℕ };

    ghost layout: { Self → Layout };

    fn byte(&self, at: u32) -> u8
        ensures { result ≡ bytes self.now at };

    fn set_byte(&mut self, at: u32, value: u8)
        requires { IsTrue (rules.may_write (layout self.old) at) }
        ensures written { bytes self.new ≡ with_byte (bytes self.old) at value }
        ensures kept { layout self.new ≡ layout self.old };

    fn may_read(&self, at: u32) -> bool
        ensures { result ≡ rules.may_read (layout self.now) at };

    fn may_write(&self, at: u32) -> bool
        ensures { result ≡ rules.may_write (layout self.now) at };

    fn may_fetch(&self, at: u32) -> bool
        ensures { result ≡ rules.may_fetch (layout self.now) at };

    fn is_keyed(&self, at: u32) -> bool
        ensures { result ≡ rules.is_keyed (layout self.now) at };

    /// Whether each byte of the word at a multiple of 4 may be read.
    #[tactic(auto, using(scale_base::proofs::Laws::each_byte_none, scale_base::proofs::Laws::each_byte_more))]
    fn may_read_word(&self, at: u32) -> bool
        requires { at % 4 ≡ 0 }
        ensures { result ≡ rules.each_byte (rules.may_read (layout self.now)) at 4 }
    {
        for k in 0..4 {
            if !self.may_read(at + k) {
                return false;
            }
        }
        true
    }

    /// Whether each byte of the word at a multiple of 4 may be written.
    #[tactic(auto, using(scale_base::proofs::Laws::each_byte_none, scale_base::proofs::Laws::each_byte_more))]
    fn may_write_word(&self, at: u32) -> bool
        requires { at % 4 ≡ 0 }
        ensures { result ≡ rules.each_byte (rules.may_write (layout self.now)) at 4 }
    {
        for k in 0..4 {
            if !self.may_write(at + k) {
                return false;
            }
        }
        true
    }

    /// The word at a multiple of 4.
    fn word(&self, at: u32) -> u32
        requires { at % 4 ≡ 0 }
        ensures { result ≡ word_at (bytes self.now) at }
    {
        u32::from_le_bytes([
            self.byte(at),
            self.byte(at + 1),
            self.byte(at + 2),
            self.byte(at + 3),
        ])
    }

    /// Writes the word at a multiple of 4.
    #[tactic(auto, using(scale_base::proofs::Laws::each_byte_first), unfolding(scale_base::specs::Layout::each_byte))]
    fn set_word(&mut self, at: u32, value: u32)
        requires aligned { at % 4 ≡ 0 }
        requires allowed { IsTrue (rules.each_byte (rules.may_write (layout self.old)) at 4) }
        ensures written { bytes self.new ≡ with_word (bytes self.old) at value }
        ensures kept { layout self.new ≡ layout self.old }
    {
        let [first, second, third, fourth] = value.to_le_bytes();
        self.set_byte(at, first);
        self.set_byte(at + 1, second);
        self.set_byte(at + 2, third);
        self.set_byte(at + 3, fourth);
    }
}
