//! What names lists that were published, and a look at them.
ghost use Rattle.std.specs.Prelude.{◌≡◌, map, Some, IfOk};
ghost use Rattle.left_right.specs.Sides.{view as known};
ghost use Rattle.published_lists.specs.Rows.{rows_of};
ghost use Rattle.published_lists.specs.Editions.{Follows};

use crate::edition::Edition;
use crate::fault::OutputFault;
use crate::lists::{Lists, OnlyGrows, Sees};
use left_right::reader::Reader;
use std::alloc::{AllocError, Global};
use std::marker::Model;

/// A place among the readers of published lists.
pub type ListReader = Reader<Lists, Option<Edition>, OnlyGrows>;

/// Names the lists that stood when it was made. It carries no rows: it is a place of its own among
/// the readers, which knows them.
#[derive(Drop)]
pub struct Told {
    reader: ListReader,
    edition: Edition,
}

impl Model for Told {
    ghost use Rattle.std.specs.Prelude.{◌≡◌, Some};
    ghost use Rattle.left_right.specs.Sides.{view as known};
    ghost use Rattle.published_lists.specs.Editions.{Edition as Named};

    ghost Value = { Named };

    ghost view = { λ t. t.edition };

    ghost invariant = { λ t. known t.reader.place ≡ Some t.edition };
}

impl Told {
    /// A place that knows what the edition names.
    pub fn new(reader: ListReader, edition: Edition) -> Told
        requires { known reader.place ≡ Some edition }
        ensures { result ≡ edition }
    {
        Told { reader, edition }
    }

    /// What it names.
    pub fn edition(&self) -> &Edition
        ensures { result.now ≡ self.now }
    {
        &self.edition
    }
}

/// Copies the rows of a subtask that are then published.
pub fn look(place: Told, ask: (Global, usize)) -> (Told, Result<Vec<Vec<u8>>, OutputFault>)
    ensures grows { Follows place result.0 }
    ensures rows { IfOk result.1 (λ rows.
        map (λ row. row.items) rows.items ≡ rows_of result.0.lists ask.1) }
{
    let (alloc, subtask) = ask;
    let Told { reader, edition } = place;
    match reader.enter_as::<Sees>() {
        Ok(reading) => {
            let edition = reading.get().edition();
            let rows = copy(alloc, reading.get().rows(subtask));
            let place = Told {
                reader: reading.leave(),
                edition,
            };
            (place, rows.map_err(|_| OutputFault::Memory))
        }
        Err(reader) => (Told { reader, edition }, Err(OutputFault::Closed)),
    }
}

// A copy of these rows.
fn copy(alloc: Global, rows: &[Vec<u8>]) -> Result<Vec<Vec<u8>>, AllocError>
    ensures { IfOk result (λ copy.
        map (λ row. row.items) copy.items ≡ map (λ row. row.items) rows.now) }
{
    let mut all = Vec::new(alloc);
    for row in rows {
        all.push(Vec::from_slice(alloc, row.as_slice())?)?;
    }
    Ok(all)
}
