//! What lines are read as.

ghost use Rattle.std.specs.Prelude.{ℕ, List, Option, IfOk};

/// What reads lines, each without those before it.
pub trait LineReader {
    /// What a line may have.
    type Item: Send + Drop;

    /// Why a line is not read.
    type Fault: Send + Drop;

    /// The line has this item, or none.
    ghost HasItem: { Self → List ℕ → Option Self.Item → Type 0 };

    /// What a line has. It is given with its end, where it has one.
    fn read(&self, line: &[u8]) -> Result<Option<Self::Item>, Self::Fault>
        ensures { IfOk result (λ item. HasItem self.now line.now item) };
}
