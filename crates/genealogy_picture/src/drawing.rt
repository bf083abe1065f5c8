//! The picture of an input.
ghost use Rattle.std.specs.Prelude.{◌≡◌, ℕ, List, None, Some, false, IfErr, IfOk, IfSome};
ghost use Rattle.std.specs.Prelude.{string_bytes};
ghost use Rattle.plant_base.specs.{Agrees};
ghost use Rattle.std.specs.IoError.{error_kind};
ghost use Rattle.genealogy_picture.specs.Reading.{ReportsAs};
ghost use Rattle.genealogy_svg.specs.{IsLaidOut};
ghost use Rattle.genealogy_picture.specs.Drawing.{of_whole, picture_in, of_layout, IsLayoutError};
ghost use Rattle.genealogy_picture.specs.Drawing.{IsTextError, IsTextOf, Draws, IsAbsent};
ghost use Rattle.genealogy_picture.specs.Drawing.{has_batch, has_lot, draw_error_of_kind};
ghost use Rattle.genealogy_picture.specs.Drawing.{read_count};
ghost use Rattle.genealogy_picture.specs.Words.{names};
ghost use Rattle.genealogy_picture.specs.declared.words.Format.TheVariants.{Svg};
ghost use Rattle.plant_trace.specs.declared.node.Node.TheVariants.{Lot, Batch};

use crate::ending::{DrawError, InputError};
use crate::reading::reported_of;
use crate::words::{Asked, Format};
use genealogy_svg::{
    Drawing, GraphError, LayoutFault, Picture, UnitedFault, dot, layout, svg, united,
};
use plant_trace::Node;
use std::alloc::Global;
use std::io;
use std::io::{ErrorKind, Read};

/// How a picture that wasn't made is reported.
fn of_whole(made: Result<Picture, UnitedFault>) -> Result<Picture, DrawError>
    ensures { result ≡ of_whole made }
{
    match made {
        Ok(picture) => Ok(picture),
        Err(UnitedFault::Reported(graph_error)) => Err(DrawError::Refused(InputError::Graph(
            graph_error,
        ))),
        Err(UnitedFault::Memory) => Err(DrawError::Memory),
    }
}

/// The picture of the answers that the bytes are.
fn picture_in(alloc: Global, bytes: &[u8]) -> Result<Picture, DrawError>
    ensures { ReportsAs (λ picture. picture) result (picture_in bytes.now) }
{
    let reported = reported_of(alloc, bytes)?;
    of_whole(united(alloc, &reported))
}

/// How a layout that wasn't made is reported.
fn of_layout(made: Result<Drawing, LayoutFault>) -> Result<Drawing, DrawError>
    ensures { result ≡ of_layout made }
{
    match made {
        Ok(drawing) => Ok(drawing),
        Err(LayoutFault::Circle) => Err(DrawError::Refused(InputError::Circle)),
        Err(LayoutFault::Lost(node)) => {
            let lost: Node = node;
            Err(DrawError::Refused(InputError::Graph(GraphError::Lost(lost))))
        }
        Err(LayoutFault::Memory) => Err(DrawError::Memory),
    }
}

/// The drawing of a picture.
fn drawing_of(alloc: Global, picture: &Picture) -> Result<Drawing, DrawError>
    ensures laid { IfOk result (IsLaidOut picture.now) }
    ensures refused { IfErr result (IsLayoutError picture.now) }
{
    of_layout(layout(alloc, picture))
}

/// The lot of an id, where the picture has it.
fn lot_named(picture: &Picture, id: &str) -> Option<Node>
    ensures found { IfSome result (λ node. node ≡ Lot id.now) }
    ensures absent { result ≡ None → has_lot picture.now id.now ≡ false }
{
    for lot in picture.lots.as_slice() {
        if lot.id.as_str() == id {
            return Some(Node::Lot(lot.id));
        }
    }
    None
}

/// The batch of an id, where the picture has it.
fn batch_named(picture: &Picture, id: &str) -> Option<Node>
    ensures found { IfSome result (λ node. node ≡ Batch id.now) }
    ensures absent { result ≡ None → has_batch picture.now id.now ≡ false }
{
    for batch in picture.batches.as_slice() {
        if batch.as_str() == id {
            return Some(Node::Batch(*batch));
        }
    }
    None
}

/// The lot that was asked for.
#[tactic(auto, using(crate::proofs::AbsentNodes::absent_lot))]
fn lot_asked(picture: &Picture, id: &str) -> Result<Option<Node>, DrawError>
    ensures node { IfOk result (λ node. node ≡ Some (Lot id.now)) }
    ensures absent { IfErr result (IsAbsent picture.now (Some (Lot id.now))) }
{
    match lot_named(picture, id) {
        Some(node) => Ok(Some(node)),
        None => Err(DrawError::Refused(InputError::Absent)),
    }
}

/// The batch that was asked for.
#[tactic(auto, using(crate::proofs::AbsentNodes::absent_batch))]
fn batch_asked(picture: &Picture, id: &str) -> Result<Option<Node>, DrawError>
    ensures node { IfOk result (λ node. node ≡ Some (Batch id.now)) }
    ensures absent { IfErr result (IsAbsent picture.now (Some (Batch id.now))) }
{
    match batch_named(picture, id) {
        Some(node) => Ok(Some(node)),
        None => Err(DrawError::Refused(InputError::Absent)),
    }
}

/// The node that was asked for, of those of the picture.
fn node_asked(picture: &Picture, asked: Asked<'_>) -> Result<Option<Node>, DrawError>
    ensures node { IfOk result (λ node. node ≡ names asked.entry) }
    ensures absent { IfErr result (IsAbsent picture.now (names asked.entry)) }
{
    match asked {
        Asked::Nothing => Ok(None),
        Asked::Lot(id) => lot_asked(picture, id),
        Asked::Batch(id) => batch_asked(picture, id),
    }
}

/// The text of a picture in SVG.
fn svg_of(alloc: Global, picture: &Picture, asked: Asked<'_>) -> Result<String, DrawError>
    ensures text { IfOk result (λ text. IsTextOf Svg (names asked.entry) picture.now (string_bytes text)) }
    ensures refused { IfErr result (IsTextError Svg (names asked.entry) picture.now) }
{
    let node = node_asked(picture, asked)?;
    let drawing = drawing_of(alloc, picture)?;
    Ok(svg(alloc, &drawing, node)?)
}

/// The text of a picture.
fn text_of(
    alloc: Global,
    format: Format,
    asked: Asked<'_>,
    picture: &Picture,
) -> Result<String, DrawError>
    ensures text { IfOk result (λ text. IsTextOf format (names asked.entry) picture.now (string_bytes text)) }
    ensures refused { IfErr result (IsTextError format (names asked.entry) picture.now) }
{
    match format {
        Format::Dot => Ok(dot(alloc, picture)?),
        Format::Svg => svg_of(alloc, picture, asked),
    }
}

/// The text of the picture of the answers that the bytes are.
fn drawn(alloc: Global, format: Format, asked: Asked<'_>, bytes: &[u8]) -> Result<String, DrawError>
    ensures { Draws format (names asked.entry) bytes.now result }
{
    let picture = picture_in(alloc, bytes)?;
    text_of(alloc, format, asked, &picture)
}

/// How a failed reading to the end is reported.
fn draw_error_of(error: &io::Error) -> DrawError
    ensures { result ≡ draw_error_of_kind (error_kind error.now) }
{
    match error.kind() {
        ErrorKind::OutOfMemory => DrawError::Memory,
        _ => DrawError::Read,
    }
}

/// How many bytes a reading to the end gave, or how its error is reported.
fn read_count(reading: io::Result<usize>) -> Result<usize, DrawError>
    ensures { result ≡ read_count reading }
{
    match reading {
        Ok(count) => Ok(count),
        Err(error) => Err(draw_error_of(&error)),
    }
}

/// The text of the picture of the answers that a reader gives to its end.
///
/// In SVG the node that is asked for is named in the heading and marked; in DOT it changes nothing.
///
/// `Refused` reports why they make none; of a picture that they make it comes in SVG alone, where its edges lead in a circle or the node that is asked for is none of it. `Read` comes where a read failed, and `Memory` where memory was refused. No other stop comes.
///
/// In the clause, `bytes` are those that the reader has left, where it knows them, and some bytes where it knows none.
pub(crate) fn draw<R: Read>(
    alloc: Global,
    format: Format,
    asked: Asked<'_>,
    reader: &mut R,
) -> Result<String, DrawError>
    ensures { (bytes : List ℕ) × Agrees (R.remaining reader.old) bytes × Draws format (names asked.entry) bytes result }
{
    let mut bytes = Vec::new(alloc);
    match read_count(reader.read_to_end(&mut bytes)) {
        Ok(_count) => drawn(alloc, format, asked, &bytes),
        Err(fault) => Err(fault),
    }
}
