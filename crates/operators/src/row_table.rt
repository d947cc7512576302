//! The table of the row operators.

ghost use Rattle.std.specs.Prelude.{◌≡◌, ◌≢◌, ◌++◌, IfSome, IfNone, IfErr, OnOk};
ghost use Rattle.std.specs.Int.{w64};
ghost use Rattle.abs_codec.specs.Spelling.{signed_spelling};
ghost use Rattle.abs_codec.specs.declared.fault.CodecFault.TheVariants.{Memory};
ghost use Rattle.operators.specs.Parameters.{form_of, parameter_spelling, parameter_view};
ghost use Rattle.operators.specs.RowTable.{kind_named, op_kind, op_parameter, row_of};

use crate::parameters::{Parameter, ParameterForm};
use crate::row_op::RowOp;
use abs_codec::{Codec, CodecFault};

/// Which of the row operators one is, whatever its parameter.
#[derive(Clone, Copy, Debug, PartialEq, Eq)]
pub enum RowKind {
    Add,
    Rekey,
    FilterGe,
    FilterLt,
    Split,
    Count,
    Sum,
    Window,
    LoopDown,
}

impl RowKind {
    /// The kind that a word of a job file names.
    pub fn named(word: &str) -> Option<RowKind>
        ensures { result ≡ kind_named word.now }
    {
        match word {
            "add" => Some(RowKind::Add),
            "rekey" => Some(RowKind::Rekey),
            "filter_ge" => Some(RowKind::FilterGe),
            "filter_lt" => Some(RowKind::FilterLt),
            "split" => Some(RowKind::Split),
            "count" => Some(RowKind::Count),
            "sum" => Some(RowKind::Sum),
            "window" => Some(RowKind::Window),
            "loop_down" => Some(RowKind::LoopDown),
            _ => None,
        }
    }

    /// The number that stands for it in the spelling of a graph.
    pub fn number(self) -> u8
        ensures { result ≡ (row_of self).number }
    {
        match self {
            RowKind::Add => 2,
            RowKind::Rekey => 3,
            RowKind::FilterGe => 4,
            RowKind::FilterLt => 5,
            RowKind::Split => 6,
            RowKind::Count => 7,
            RowKind::Sum => 8,
            RowKind::Window => 9,
            RowKind::LoopDown => 10,
        }
    }

    /// The form of its parameter.
    pub fn form(self) -> ParameterForm
        ensures { result ≡ (row_of self).form }
    {
        match self {
            RowKind::Add | RowKind::FilterGe | RowKind::FilterLt | RowKind::Split => {
                ParameterForm::Number
            }
            RowKind::Rekey => ParameterForm::Key,
            RowKind::Window => ParameterForm::Size,
            RowKind::Count | RowKind::Sum | RowKind::LoopDown => ParameterForm::Nothing,
        }
    }

    /// How many ports it sends on.
    pub fn ports(self) -> u32
        ensures { result ≡ (row_of self).ports }
    {
        match self {
            RowKind::Split | RowKind::LoopDown => 2,
            _ => 1,
        }
    }

    /// Whether it keeps a state for each key.
    pub fn is_keyed(self) -> bool
        ensures { result ≡ (row_of self).is_keyed }
    {
        matches!(self, RowKind::Count | RowKind::Sum | RowKind::Window)
    }
}

/// Writes a number of 64 bits.
fn write_number(n: i64, out: &mut Vec<u8>) -> Result<(), CodecFault>
    ensures appended { OnOk result (out.new.items ≡ out.old.items ++ signed_spelling w64 n) }
    ensures memory { IfErr result (λ fault. fault ≡ Memory) }
{
    n.write(out)
}

impl RowOp {
    /// The operator of a kind with a parameter, if the parameter is of the kind's form.
    pub fn new(kind: RowKind, parameter: Parameter) -> Option<RowOp>
        ensures kind { IfSome result (λ op. op_kind op ≡ kind) }
        ensures parameter { IfSome result (λ op. op_parameter op ≡ parameter_view parameter) }
        ensures none { IfNone result (form_of (parameter_view parameter) ≢ (row_of kind).form) }
    {
        match (kind, parameter) {
            (RowKind::Add, Parameter::Number(n)) => Some(RowOp::Add { n }),
            (RowKind::Rekey, Parameter::Key(k)) => Some(RowOp::Rekey { k }),
            (RowKind::FilterGe, Parameter::Number(n)) => Some(RowOp::FilterGe { n }),
            (RowKind::FilterLt, Parameter::Number(n)) => Some(RowOp::FilterLt { n }),
            (RowKind::Split, Parameter::Number(n)) => Some(RowOp::Split { n }),
            (RowKind::Count, Parameter::Nothing) => Some(RowOp::Count),
            (RowKind::Sum, Parameter::Nothing) => Some(RowOp::Sum),
            (RowKind::Window, Parameter::Size(n)) => Some(RowOp::Window { n }),
            (RowKind::LoopDown, Parameter::Nothing) => Some(RowOp::LoopDown),
            _ => None,
        }
    }

    /// Its kind.
    pub fn kind(&self) -> RowKind
        ensures { result ≡ op_kind self.now }
    {
        match self {
            RowOp::Add { .. } => RowKind::Add,
            RowOp::Rekey { .. } => RowKind::Rekey,
            RowOp::FilterGe { .. } => RowKind::FilterGe,
            RowOp::FilterLt { .. } => RowKind::FilterLt,
            RowOp::Split { .. } => RowKind::Split,
            RowOp::Count => RowKind::Count,
            RowOp::Sum => RowKind::Sum,
            RowOp::Window { .. } => RowKind::Window,
            RowOp::LoopDown => RowKind::LoopDown,
        }
    }

    /// Writes its parameter, as the spelling of a graph has it.
    pub fn write_parameter(&self, out: &mut Vec<u8>) -> Result<(), CodecFault>
        ensures appended { OnOk result (out.new.items ≡ out.old.items
            ++ parameter_spelling (op_parameter self.now)) }
        ensures memory { IfErr result (λ fault. fault ≡ Memory) }
    {
        match self {
            RowOp::Add { n } | RowOp::FilterGe { n } | RowOp::FilterLt { n } | RowOp::Split { n } =>
                write_number(*n, out),
            RowOp::Rekey { k } => k.text.write(out),
            RowOp::Window { n } => n.n.write(out),
            RowOp::Count | RowOp::Sum | RowOp::LoopDown => Ok(()),
        }
    }
}
