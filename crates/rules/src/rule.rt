// What a choosing rule is.
ghost use Rattle.std.specs.Prelude.{◌≡◌, true};
ghost use Rattle.rules.specs.Keys.{Key, Lawful, ByLeft};

/// Ranks the tokens of a plane: the lower key goes first. A token on the ceiling goes before any active one below it.
pub trait Rule {
    ghost ranks: { Self → Key };

    /// The key of a token with this time left, processor and tag, in a plane with this span.
    fn key(&self, left: u64, span: u64, processor: u8, tag: u16) -> u64
        ensures { result ≡ ranks self.now left span processor tag };

    /// Whether nothing but the time left counts, and the most goes first. A finish then keeps the tokens in order and asks
    /// for no key. No rule has to say so.
    fn is_by_left(&self) -> bool
        ensures { result ≡ true → ByLeft (ranks self.now) }
    {
        false
    }

    ghost lawful: { (rule : Self) → Lawful (ranks rule) };
}
