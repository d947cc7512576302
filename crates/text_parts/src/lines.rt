//! What can be spelled line by line.

ghost use Rattle.std.specs.Prelude.{◌≡◌, ◌<◌, ◌≤◌, ◌++◌, ℕ, List, IfOk};
ghost use Rattle.text_parts.specs.Lines.{AreLines};

/// Lines that are numbered from 0, each of which can be spelled without those before it.
pub trait Lines {
    /// Why a line is not spelled.
    type Fault: Drop;

    /// The bytes may be the line of this number.
    ghost IsLine: { Self → ℕ → List ℕ → Type 0 };

    /// Puts lines last in the text, from the one of this number on, and answers how many: so many
    /// at most, and one at least where any is asked for. At `Err` those before the one that is not
    /// spelled may stand there.
    fn put_lines(&self, first: u64, count: u64, text: &mut Vec<u8>) -> Result<u64, Self::Fault>
        ensures most { IfOk result (λ put. put ≤ count) }
        ensures least { IfOk result (λ put. 0 < count → 0 < put) }
        ensures lines { IfOk result (λ put. (bytes : List ℕ)
            × AreLines (IsLine self.now) first put bytes
            × (text.new.items ≡ text.old.items ++ bytes)) };
}
