//! A picture in DOT.
ghost use Rattle.std.specs.Prelude.{◌≡◌, IfOk, Some, string_bytes};
ghost use Rattle.genealogy_svg.specs.Dot.{mark_name, mark_colour, mark_line, borders, stock_text};
ghost use Rattle.genealogy_svg.specs.Dot.{lot_label, lot_style, lot_line, batch_label};
ghost use Rattle.genealogy_svg.specs.Dot.{batch_line, ends_text, edge_line, dot_text};

use crate::model::{Picture, PictureEdge, PictureLot};
use plant_base::{DisplayItem, Id, Joined};
use plant_trace::Node;
use std::alloc::{AllocError, Global};
use std::fmt;

/// The word for a lot that is held, for one that is recalled, and for one that is both; nothing for another.
pub fn mark_name(is_held: bool, is_recalled: bool) -> &'static str
    ensures { result.now ≡ mark_name is_held is_recalled }
{
    match (is_held, is_recalled) {
        (false, false) => "",
        (true, false) => "HELD",
        (false, true) => "RECALLED",
        (true, true) => "HELD, RECALLED",
    }
}

/// The colour that a lot is filled with: white, or another where it is held or recalled.
pub fn mark_colour(is_held: bool, is_recalled: bool) -> &'static str
    ensures { result.now ≡ mark_colour is_held is_recalled }
{
    match (is_held, is_recalled) {
        (false, false) => "#ffffff",
        (true, false) => "#fff3cd",
        (false, true) | (true, true) => "#f8d7da",
    }
}

fn mark_line(is_held: bool, is_recalled: bool) -> &'static str
    ensures { result.now ≡ mark_line is_held is_recalled }
{
    match (is_held, is_recalled) {
        (false, false) => "",
        (true, false) => "\\nHELD",
        (false, true) => "\\nRECALLED",
        (true, true) => "\\nHELD, RECALLED",
    }
}

fn borders(is_held: bool, is_recalled: bool) -> u8
    ensures { result ≡ borders is_held is_recalled }
{
    if is_held || is_recalled { 2 } else { 1 }
}

/// The text below a lot's id: its definition, and how much is in stock.
#[derive(Clone, Copy)]
pub struct LotStockText(pub PictureLot);

impl fmt::Display for LotStockText {
    ghost output = { λ l. Some (stock_text l.0) };

    fn fmt<W: fmt::Write>(&self, f: &mut fmt::Formatter<W>) -> fmt::Result {
        let lot = self.0;
        let definition = lot.definition.as_str();
        let stock = lot.stock;
        let unit = lot.unit.as_str();
        write!(f, "{definition} {stock} {unit}")
    }
}

#[derive(Clone, Copy)]
struct LotLabel(PictureLot);

impl fmt::Display for LotLabel {
    ghost output = { λ l. Some (lot_label l.0) };

    fn fmt<W: fmt::Write>(&self, f: &mut fmt::Formatter<W>) -> fmt::Result {
        let lot = self.0;
        let stock = LotStockText(lot);
        let mark = mark_line(lot.is_held, lot.is_recalled);
        let id = lot.id.as_str();
        write!(f, "{id}\\n{stock}{mark}")
    }
}

#[derive(Clone, Copy)]
struct LotStyle(PictureLot);

impl fmt::Display for LotStyle {
    ghost output = { λ l. Some (lot_style l.0) };

    fn fmt<W: fmt::Write>(&self, f: &mut fmt::Formatter<W>) -> fmt::Result {
        let lot = self.0;
        let colour = mark_colour(lot.is_held, lot.is_recalled);
        let borders = borders(lot.is_held, lot.is_recalled);
        write!(
            f,
            "shape=ellipse, style=filled, fillcolor=\"{colour}\", peripheries={borders}"
        )
    }
}

#[derive(Clone, Copy)]
struct LotLine;

impl DisplayItem<PictureLot> for LotLine {
    ghost text = { λ _. lot_line };

    #[tactic(auto, unfolding(crate::specs::Dot::lot_line))]
    fn show<W: fmt::Write>(&self, lot: &PictureLot, f: &mut fmt::Formatter<W>) -> fmt::Result {
        let style = LotStyle(*lot);
        let label = LotLabel(*lot);
        let id = lot.id.as_str();
        write!(f, "  \"lot {id}\" [{style}, label=\"{label}\"];\n")
    }
}

#[derive(Clone, Copy)]
struct BatchLabel(Id);

impl fmt::Display for BatchLabel {
    ghost output = { λ b. Some (batch_label b.0) };

    fn fmt<W: fmt::Write>(&self, f: &mut fmt::Formatter<W>) -> fmt::Result {
        let batch = self.0;
        let id = batch.as_str();
        write!(f, "{id}\\nbatch")
    }
}

#[derive(Clone, Copy)]
struct BatchDotLine;

impl DisplayItem<Id> for BatchDotLine {
    ghost text = { λ _. batch_line };

    #[tactic(auto, unfolding(crate::specs::Dot::batch_line))]
    fn show<W: fmt::Write>(&self, batch: &Id, f: &mut fmt::Formatter<W>) -> fmt::Result {
        let node = Node::Batch(*batch);
        let label = BatchLabel(*batch);
        write!(f, "  \"{node}\" [shape=box, label=\"{label}\"];\n")
    }
}

#[derive(Clone, Copy)]
struct EndsText(PictureEdge);

impl fmt::Display for EndsText {
    ghost output = { λ e. Some (ends_text e.0) };

    fn fmt<W: fmt::Write>(&self, f: &mut fmt::Formatter<W>) -> fmt::Result {
        let from = self.0.from;
        let to = self.0.to;
        write!(f, "\"{from}\" -> \"{to}\"")
    }
}

#[derive(Clone, Copy)]
struct EdgeLine;

impl DisplayItem<PictureEdge> for EdgeLine {
    ghost text = { λ _. edge_line };

    #[tactic(auto, unfolding(crate::specs::Dot::edge_line))]
    fn show<W: fmt::Write>(&self, edge: &PictureEdge, f: &mut fmt::Formatter<W>) -> fmt::Result {
        let ends = EndsText(*edge);
        let amount = edge.amount;
        let unit = edge.unit.as_str();
        write!(f, "  {ends} [label=\"{amount} {unit}\"];\n")
    }
}

#[derive(Clone, Copy)]
struct WholeDot<'a>(&'a Picture);

impl fmt::Display for WholeDot<'_> {
    ghost output = { λ d. Some (dot_text d.0.now) };

    #[tactic(auto, unfolding(crate::specs::Dot::dot_text))]
    fn fmt<W: fmt::Write>(&self, f: &mut fmt::Formatter<W>) -> fmt::Result {
        let picture = self.0;
        let lots = Joined(picture.lots.as_slice(), LotLine);
        let batches = Joined(picture.batches.as_slice(), BatchDotLine);
        let edges = Joined(picture.edges.as_slice(), EdgeLine);
        write!(
            f,
            "digraph genealogy {{\n  rankdir=LR;\n{lots}{batches}{edges}}}\n"
        )
    }
}

/// A picture in DOT, which Graphviz and its like lay out and draw: a line a lot, a batch and an edge, in their order. Lots are ellipses and batches
/// boxes; a lot that is held or recalled is filled, has a second border and says so. An edge has its amount.
///
/// The only error is that memory was refused.
pub fn dot(alloc: Global, picture: &Picture) -> Result<String, AllocError>
    ensures { IfOk result (λ text. string_bytes text ≡ dot_text picture.now) }
{
    WholeDot(picture).to_string(alloc)
}
