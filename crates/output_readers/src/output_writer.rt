//! The writer, and the readers that it has not handed out.
ghost use Rattle.std.specs.Prelude.{◌≡◌, ℕ, ◌+◌, ◌<◌, [], ◌∷◌, ◌++◌, drop, length, replicate, vec_len, Some, All, IfOk, IfErr, MatchResult};
ghost use Rattle.std.specs.Arc.{arc_value};
ghost use Rattle.left_right.specs.Sides.{view};
ghost use Rattle.published_lists.specs.Rows.{rows_of, with_row, EachBegins};
ghost use Rattle.published_lists.specs.Editions.{Follows};
ghost use Rattle.published_lists.specs.Holding.{IsSealed};
ghost use Rattle.published_lists.specs.Operations.{staged};
ghost use Rattle.output_readers.specs.Seeing.{IsOpening};

use crate::output_reader::{OutputReader, note};
use core::mem::replace_with;
use left_right::reader::Factory;
use left_right::writer::Writer;
use published_lists::{
    Edition, Head, Learns, ListReader, ListWriter, Lists, Notes, OnlyGrows, Operation, OutputFault,
    Sees, Told, named,
};
use std::alloc::{AllocError, Global};
use std::marker::Model;
use std::sync::Wait;

type ListFactory = Factory<Lists, Option<Edition>, OnlyGrows>;

// How many readers a writer has.
const READERS: usize = 16;

// How many places there are for readers and for what is told.
const PLACES: usize = 64;

// A new reader, that knows nothing. Where all places are taken it waits for one.
fn place<R: Wait>(rt: &R, factory: &ListFactory) -> ListReader
    ensures { result.place.table_id ≡ (arc_value factory.now.board).shared.table_id }
{
    for _ in rt.forever() {
        if let Ok(reader) = factory.reader() {
            return reader;
        }
    }
    unreachable!()
}

// A new reader that knows what the writer knows.
fn relay<R: Wait>(rt: &R, writer: &mut ListWriter) -> ListReader
    ensures knows { view result.place ≡ view writer.old.desk.place }
    ensures same { (writer.new.desk.shown ≡ writer.old.desk.shown)
        × (writer.new.log ≡ writer.old.log)
        × (writer.new.behind ≡ writer.old.behind)
        × (view writer.new.desk.place ≡ view writer.old.desk.place) }
{
    let mut reader = place(rt, writer.factory());
    reader.learn::<Learns>(writer.tell::<Notes>());
    reader
}

// Puts an operation into the writer's log.
fn stage(writer: &mut ListWriter, operation: Operation) -> Result<(), AllocError>
    ensures desk { writer.new.desk ≡ writer.old.desk }
    ensures last { MatchResult result
        (λ _. drop writer.new.behind writer.new.log.items
        ≡ drop writer.old.behind writer.old.log.items ++ operation ∷ [])
        (λ _. drop writer.new.behind writer.new.log.items
        ≡ drop writer.old.behind writer.old.log.items) }
{
    match writer.append(operation) {
        Ok(()) => Ok(()),
        Err(_) => Err(AllocError),
    }
}

// Shows readers all that the writer's log has.
fn show<R: Wait>(writer: ListWriter, rt: &R) -> (ListWriter, Result<(), AllocError>)
    requires { IsSealed (staged writer.desk.shown.value writer.behind writer.log.items)
        × Follows writer.desk.shown.value.edition
        (staged writer.desk.shown.value writer.behind writer.log.items).edition }
    ensures { MatchResult result.1
        (λ _. (result.0.desk.shown.value
        ≡ staged writer.desk.shown.value writer.behind writer.log.items)
        × (drop result.0.behind result.0.log.items ≡ [])
        × (view result.0.desk.place ≡ Some result.0.desk.shown.value.edition))
        (λ _. (result.0.desk.shown.value ≡ writer.desk.shown.value)
        × (drop result.0.behind result.0.log.items ≡ drop writer.behind writer.log.items)
        × (view result.0.desk.place ≡ view writer.desk.place)) }
{
    writer.publish_as::<Sees, R>(rt)
}

// Shows readers all that the writer's log has, under this name.
fn announce<R: Wait>(writer: ListWriter, ask: (&R, Edition)) -> (ListWriter, Result<(), AllocError>)
    requires named { ask.1.lists
        ≡ (staged writer.desk.shown.value writer.behind writer.log.items).lists }
    requires follows { Follows writer.desk.shown.value.edition ask.1 }
    ensures { MatchResult result.1
        (λ _. (result.0.desk.shown.value.lists ≡ ask.entry.1.lists)
        × (result.0.desk.shown.value.edition ≡ ask.entry.1)
        × (drop result.0.behind result.0.log.items ≡ [])
        × (view result.0.desk.place ≡ Some ask.entry.1))
        (λ _. (result.0.desk.shown.value ≡ writer.desk.shown.value)
        × ((staged result.0.desk.shown.value result.0.behind result.0.log.items).lists
        ≡ ask.entry.1.lists)
        × (view result.0.desk.place ≡ view writer.desk.place)) }
{
    let (rt, edition) = ask;
    let mut writer = writer;
    match stage(&mut writer, Operation::Seal { edition }) {
        Ok(()) => show(writer, rt),
        Err(e) => (writer, Err(e)),
    }
}

// A writer that shows empty lists of so many subtasks, and the edition that names them.
fn opened<R: Wait>(
    rt: &R,
    alloc: Global,
    subtasks: usize,
    head: &Head,
    nothing: &Edition,
) -> Result<(ListWriter, Edition), AllocError>
    requires head { head.now ≡ nothing.now.history }
    requires nothing { nothing.now.lists ≡ [] }
    ensures shown { IfOk result (λ o.
        (o.0.desk.shown.value ≡ record { lists = replicate subtasks []; edition = o.1 })
        × (drop o.0.behind o.0.log.items ≡ [])
        × (view o.0.desk.place ≡ Some o.1)) }
    ensures edition { IfOk result (λ o. (o.1.history ≡ head.now)
        × (o.1.lists ≡ replicate subtasks [])) }
{
    let first = Lists::new(alloc, subtasks, nothing.again())?;
    let second = Lists::new(alloc, subtasks, nothing.again())?;
    let writer: ListWriter = Writer::new(alloc, first, second, PLACES)?;
    let Some(edition) = named(rt, head, nothing, &writer) else {
        writer.take(rt);
        return Err(AllocError);
    };
    let (writer, shown) = announce(writer, (rt, edition.again()));
    match shown {
        Ok(()) => Ok((writer, edition)),
        Err(e) => {
            writer.take(rt);
            Err(e)
        }
    }
}

// A reader of a writer that shows empty lists of so many subtasks.
fn opening_reader<R: Wait>(
    rt: &R,
    alloc: Global,
    subtasks: usize,
    writer: &mut ListWriter,
) -> Result<OutputReader, AllocError>
    requires known { view writer.old.desk.place ≡ Some writer.old.desk.shown.value.edition }
    requires empty { writer.old.desk.shown.value.edition.lists ≡ replicate subtasks [] }
    ensures opening { IfOk result
        (IsOpening writer.old.desk.shown.value.edition.history subtasks) }
    ensures same { (writer.new.desk.shown ≡ writer.old.desk.shown)
        × (writer.new.log ≡ writer.old.log)
        × (writer.new.behind ≡ writer.old.behind)
        × (view writer.new.desk.place ≡ view writer.old.desk.place) }
{
    let edition = writer.published().edition();
    let reader = relay(rt, writer);
    OutputReader::new(alloc, subtasks, Told::new(reader, edition))
}

// All the readers of a writer that shows empty lists of so many subtasks.
fn readers<R: Wait>(
    rt: &R,
    alloc: Global,
    subtasks: usize,
    writer: &mut ListWriter,
) -> Result<Vec<OutputReader>, AllocError>
    requires known { view writer.old.desk.place ≡ Some writer.old.desk.shown.value.edition }
    requires empty { writer.old.desk.shown.value.edition.lists ≡ replicate subtasks [] }
    ensures opening { IfOk result (λ all.
        All (IsOpening writer.old.desk.shown.value.edition.history subtasks) all.items) }
    ensures count { IfOk result (λ all. vec_len all ≡ READERS) }
    ensures same { (writer.new.desk.shown ≡ writer.old.desk.shown)
        × (writer.new.log ≡ writer.old.log)
        × (writer.new.behind ≡ writer.old.behind)
        × (view writer.new.desk.place ≡ view writer.old.desk.place) }
{
    let mut all = Vec::new(alloc);
    for _ in 0..READERS {
        all.push(opening_reader(rt, alloc, subtasks, writer)?)?;
    }
    Ok(all)
}

/// Is handed rows by subtask, and publishes them. Once it is dropped every read is refused; its
/// drop waits for readers that copy a list at that moment.
pub struct OutputWriter<R: Wait + Drop> {
    writer: ListWriter,
    head: Head,
    // The last edition that lists were named by.
    last: Edition,
    // How many rows of each subtask were handed in.
    counts: Vec<usize>,
    readers: Vec<OutputReader>,
    rt: R,
}

impl<R: Wait + Drop> Model for OutputWriter<R> {
    ghost use Rattle.std.specs.Prelude.{vec_len};
    ghost use Rattle.left_right.specs.Sides.{view as known};
    ghost use Rattle.published_lists.specs.Operations.{staged};
    ghost use Rattle.output_readers.specs.Seeing.{Output, IsWriting};

    ghost Value = { Output };

    ghost view = { λ o. record {
      history = o.head;
      published = o.writer.desk.shown.value.lists;
      appended = (staged o.writer.desk.shown.value o.writer.behind o.writer.log.items).lists;
      readers = vec_len o.readers;
    } };

    ghost invariant = { λ o. IsWriting o.head (known o.writer.desk.place) o.writer.desk.shown.value
        (staged o.writer.desk.shown.value o.writer.behind o.writer.log.items)
        o.last o.counts.items o.readers.items };
}

impl<R: Wait + Drop> OutputWriter<R> {
    /// A writer with empty lists of so many subtasks, and its 16 readers.
    pub fn new(rt: R, alloc: Global, subtasks: usize) -> Result<OutputWriter<R>, OutputFault>
        ensures lists { IfOk result (λ o. (o.published ≡ replicate subtasks [])
            × (o.appended ≡ replicate subtasks [])) }
        ensures readers { IfOk result (λ o. o.readers ≡ 16) }
        ensures memory { IfErr result (λ f. f ≡ OutputFault.Memory) }
    {
        let (head, nothing) = Head::new();
        let counts = Vec::from_elem(alloc, 0usize, subtasks)?;
        let (mut writer, last) = opened(&rt, alloc, subtasks, &head, &nothing)?;
        match readers(&rt, alloc, subtasks, &mut writer) {
            Ok(readers) => Ok(OutputWriter {
                writer,
                head,
                last,
                counts,
                readers,
                rt,
            }),
            Err(e) => {
                writer.take(&rt);
                Err(e.into())
            }
        }
    }

    /// How many subtasks there are.
    pub fn subtasks(&self) -> usize
        ensures { result ≡ length self.now.appended }
    {
        self.counts.len()
    }

    /// How many rows of a subtask were handed in.
    pub fn appended(&self, subtask: usize) -> usize
        ensures { result ≡ length (rows_of self.now.appended subtask) }
    {
        match self.counts.get(subtask) {
            Some(rows) => *rows,
            None => 0,
        }
    }

    /// A law, with nothing to do: what readers can see begins all that was handed in.
    pub fn published_begins(&self)
        ensures { EachBegins self.now.published self.now.appended }
    {
        // (brings into the proof what every writer keeps)
        let _ = &self.last;
    }

    /// One of the readers that were made with the writer. It has read nothing, and was told of no
    /// row. `ReadersFull` where all 16 were handed out.
    pub fn reader(&mut self) -> Result<OutputReader, OutputFault>
        ensures opening { IfOk result
            (IsOpening self.old.history (length self.old.appended)) }
        ensures full { IfErr result (λ f. (f ≡ OutputFault.ReadersFull) × (self.old.readers ≡ 0)) }
        ensures readers { MatchResult result (λ _. self.old.readers ≡ self.new.readers + 1)
            (λ _. self.new.readers ≡ self.old.readers) }
        ensures lists { (self.new.published ≡ self.old.published)
            × (self.new.appended ≡ self.old.appended) }
        ensures history { self.new.history ≡ self.old.history }
    {
        self.readers.pop().ok_or(OutputFault::ReadersFull)
    }

    /// Puts a row last in a subtask's list. Readers do not see it before it is published.
    pub fn append(&mut self, subtask: usize, row: Vec<u8>) -> Result<(), OutputFault>
        requires { subtask < length self.old.appended }
        ensures appended { MatchResult result
            (λ _. self.new.appended ≡ with_row self.old.appended subtask row.items)
            (λ _. self.new.appended ≡ self.old.appended) }
        ensures memory { IfErr result (λ f. f ≡ OutputFault.Memory) }
        ensures published { self.new.published ≡ self.old.published }
        ensures same { (self.new.history ≡ self.old.history)
            × (self.new.readers ≡ self.old.readers) }
    {
        let rows = self.appended(subtask);
        if rows == usize::MAX {
            return Err(OutputFault::Memory);
        }
        stage(&mut self.writer, Operation::Append { subtask, row })?;
        note(self.counts.as_mut_slice(), subtask, rows + 1);
        Ok(())
    }

    /// Shows readers all that was handed in, and tells which lists these are. At `Err` memory was
    /// refused, or no place was free for the `Told`, and readers see what they saw.
    pub fn publish(&mut self) -> Result<Told, OutputFault>
        ensures published { MatchResult result (λ _. self.new.published ≡ self.old.appended)
            (λ _. self.new.published ≡ self.old.published) }
        ensures told { IfOk result (λ told. (told.history ≡ self.new.history)
            × (told.lists ≡ self.new.published)) }
        ensures memory { IfErr result (λ f. f ≡ OutputFault.Memory) }
        ensures appended { self.new.appended ≡ self.old.appended }
        ensures same { (self.new.history ≡ self.old.history)
            × (self.new.readers ≡ self.old.readers) }
    {
        drop(self.writer.factory().reader()?);
        let Some(edition) = named(&self.rt, &self.head, &self.last, &self.writer) else {
            return Err(OutputFault::Memory);
        };
        self.last = edition.again();
        replace_with(&mut self.writer, (&self.rt, edition.again()), announce::<R>)?;
        let reader = relay(&self.rt, &mut self.writer);
        Ok(Told::new(reader, edition))
    }
}

impl<R: Wait + Drop> Drop for OutputWriter<R> {
    fn drop(self) {
        let OutputWriter {
            writer,
            head: _head,
            last: _last,
            counts: _counts,
            readers: _readers,
            rt,
        } = self;
        writer.take(&rt);
    }
}
