//! Why a text is not written.

use std::alloc::AllocError;

/// Why a text is not written to its end.
#[derive(Debug, Drop)]
pub enum TextFault<E> {
    /// A line is not spelled.
    Line(E),
    Memory,
    /// The writer took no more.
    Output,
}

impl<E> From<AllocError> for TextFault<E> {
    ghost use Rattle.std.specs.Prelude.{◌≡◌};
    ghost use Rattle.text_parts.specs.declared.fault.TextFault.TheVariants.{Memory};

    ghost from_gives = { λ _ e. e ≡ Memory };

    fn from(_e: AllocError) -> Self {
        TextFault::Memory
    }
}
