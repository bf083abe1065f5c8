//! The boxes of lots and batches.
ghost use Rattle.std.specs.Prelude.{◌≡◌, ◌≤◌, Some};
ghost use Rattle.genealogy_svg.specs.Svg.{batch_colour, border, box_text, is_asked, outline};
ghost use Rattle.genealogy_svg.specs.Svg.{unless_empty, lot_mark, mark_end, lot_title, mark_text};
ghost use Rattle.genealogy_svg.specs.Svg.{lot_texts, lot_box, batch_title, batch_texts, batch_box};
ghost use Rattle.genealogy_svg.specs.Dot.{stock_text};

use crate::drawing::{BoxPosition, DrawnBatch, DrawnLot};
use crate::graphviz::{LotStockText, mark_colour, mark_name};
use crate::model::PictureLot;
use crate::points::{Point, left_of, middle_of, top_of};
use plant_base::{DisplayItem, Id};
use plant_trace::Node;
use std::fmt;

/// A line of a box, so far below its upper side.
#[derive(Clone, Copy)]
struct BoxText<'a> {
    position: BoxPosition,
    below: u8,
    text: &'a str,
}

impl fmt::Display for BoxText<'_> {
    ghost output = { λ b. Some (box_text b.position b.below b.text.now) };

    fn fmt<W: fmt::Write>(&self, f: &mut fmt::Formatter<W>) -> fmt::Result {
        let point = Point {
            x: middle_of(self.position),
            y: top_of(self.position) + u64::from(self.below),
        };
        let text = self.text;
        write!(f, "<text{point}>{text}</text>")
    }
}

/// The line of a box with a lot's definition and stock.
#[derive(Clone, Copy)]
struct StockLine(DrawnLot);

impl fmt::Display for StockLine {
    ghost output = { λ l. Some (box_text l.0.position 34 (stock_text l.0.lot)) };

    fn fmt<W: fmt::Write>(&self, f: &mut fmt::Formatter<W>) -> fmt::Result {
        let point = Point {
            x: middle_of(self.0.position),
            y: top_of(self.0.position) + 34,
        };
        let text = LotStockText(self.0.lot);
        write!(f, "<text{point}>{text}</text>")
    }
}

/// The end of an outline, which has its border: that of the node that was asked for is thick.
#[derive(Clone, Copy)]
struct Border(bool);

impl fmt::Display for Border {
    ghost output = { λ b. Some (border b.0) };

    fn fmt<W: fmt::Write>(&self, f: &mut fmt::Formatter<W>) -> fmt::Result {
        match self.0 {
            true => f.write_str("\" stroke=\"#0b5fa5\" stroke-width=\"4\"/>"),
            false => f.write_str("\" stroke=\"#333333\"/>"),
        }
    }
}

/// Whether a node is the one that was asked for.
fn is_asked(asked: Option<Node>, node: Node) -> bool
    ensures { result ≡ is_asked asked node }
{
    match asked {
        Some(it) => it == node,
        None => false,
    }
}

/// The outline of a box, with corners that are so round.
#[derive(Clone, Copy)]
struct Outline {
    position: BoxPosition,
    round: u8,
    colour: &'static str,
    is_asked: bool,
}

impl fmt::Display for Outline {
    ghost output = { λ o. Some (outline o.position o.round o.colour.now o.is_asked) };

    fn fmt<W: fmt::Write>(&self, f: &mut fmt::Formatter<W>) -> fmt::Result {
        let point = Point {
            x: left_of(self.position),
            y: top_of(self.position),
        };
        let round = self.round;
        let colour = self.colour;
        let end = Border(self.is_asked);
        write!(
            f,
            "<rect{point} width=\"180\" height=\"56\" rx=\"{round}\" fill=\"{colour}{end}"
        )
    }
}

// ---- lots

fn lot_mark(lot: &PictureLot) -> &'static str
    ensures { result.now ≡ lot_mark lot.now }
{
    mark_name(lot.is_held, lot.is_recalled)
}

/// The mark of a lot at the end of its title.
#[derive(Clone, Copy)]
struct MarkEnd(PictureLot);

impl fmt::Display for MarkEnd {
    ghost output = { λ l. Some (mark_end l.0) };

    fn fmt<W: fmt::Write>(&self, f: &mut fmt::Formatter<W>) -> fmt::Result {
        let mark = lot_mark(&self.0);
        if mark.len() == 0 {
            return Ok(());
        }
        write!(f, ", {mark}")
    }
}

#[derive(Clone, Copy)]
struct LotTitle(PictureLot);

impl fmt::Display for LotTitle {
    ghost output = { λ l. Some (lot_title l.0) };

    fn fmt<W: fmt::Write>(&self, f: &mut fmt::Formatter<W>) -> fmt::Result {
        let lot = self.0;
        let stock = LotStockText(lot);
        let mark = MarkEnd(lot);
        let id = lot.id.as_str();
        write!(f, "<title>lot {id}, {stock}{mark}</title>")
    }
}

/// The line of a box that says that a lot is held or recalled: nothing of another.
#[derive(Clone, Copy)]
struct MarkText(DrawnLot);

impl fmt::Display for MarkText {
    ghost output = { λ l. Some (mark_text l.0) };

    fn fmt<W: fmt::Write>(&self, f: &mut fmt::Formatter<W>) -> fmt::Result {
        let text = lot_mark(&self.0.lot);
        if text.len() == 0 {
            return Ok(());
        }
        let line = BoxText {
            position: self.0.position,
            below: 50,
            text,
        };
        write!(f, "{line}")
    }
}

#[derive(Clone, Copy)]
struct LotTexts(DrawnLot);

impl fmt::Display for LotTexts {
    ghost output = { λ l. Some (lot_texts l.0) };

    fn fmt<W: fmt::Write>(&self, f: &mut fmt::Formatter<W>) -> fmt::Result {
        let drawn = self.0;
        let stock = StockLine(drawn);
        let mark = MarkText(drawn);
        let id = BoxText {
            position: drawn.position,
            below: 18,
            text: drawn.lot.id.as_str(),
        };
        write!(f, "{id}{stock}{mark}")
    }
}

/// The box of a lot, where this node was asked for.
#[derive(Clone, Copy)]
pub(crate) struct LotBox(pub(crate) Option<Node>);

impl DisplayItem<DrawnLot> for LotBox {
    ghost text = { λ b. lot_box b.0 };

    #[tactic(auto, unfolding(crate::specs::Svg::lot_box))]
    fn show<W: fmt::Write>(&self, drawn: &DrawnLot, f: &mut fmt::Formatter<W>) -> fmt::Result {
        let title = LotTitle(drawn.lot);
        let outline = Outline {
            position: drawn.position,
            round: 14,
            colour: mark_colour(drawn.lot.is_held, drawn.lot.is_recalled),
            is_asked: is_asked(self.0, Node::Lot(drawn.lot.id)),
        };
        let texts = LotTexts(*drawn);
        write!(f, "<g>{title}{outline}{texts}</g>\n")
    }
}

// ---- batches

#[derive(Clone, Copy)]
struct BatchTitle(Id);

impl fmt::Display for BatchTitle {
    ghost output = { λ b. Some (batch_title b.0) };

    fn fmt<W: fmt::Write>(&self, f: &mut fmt::Formatter<W>) -> fmt::Result {
        let batch = self.0;
        let id = batch.as_str();
        write!(f, "<title>batch {id}</title>")
    }
}

#[derive(Clone, Copy)]
struct BatchTexts(DrawnBatch);

impl fmt::Display for BatchTexts {
    ghost output = { λ b. Some (batch_texts b.0) };

    fn fmt<W: fmt::Write>(&self, f: &mut fmt::Formatter<W>) -> fmt::Result {
        let drawn = self.0;
        let id = BoxText {
            position: drawn.position,
            below: 26,
            text: drawn.batch.as_str(),
        };
        let kind = BoxText {
            position: drawn.position,
            below: 42,
            text: "batch",
        };
        write!(f, "{id}{kind}")
    }
}

/// What a batch is filled with.
#[tactic(auto, unfolding(crate::specs::Svg::batch_colour))]
fn batch_colour() -> &'static str
    ensures { result.now ≡ batch_colour }
{
    "#e7f1ff"
}

/// The box of a batch, where this node was asked for.
#[derive(Clone, Copy)]
pub(crate) struct BatchBox(pub(crate) Option<Node>);

impl DisplayItem<DrawnBatch> for BatchBox {
    ghost text = { λ b. batch_box b.0 };

    #[tactic(auto, unfolding(crate::specs::Svg::batch_box))]
    fn show<W: fmt::Write>(&self, drawn: &DrawnBatch, f: &mut fmt::Formatter<W>) -> fmt::Result {
        let title = BatchTitle(drawn.batch);
        let outline = Outline {
            position: drawn.position,
            round: 0,
            colour: batch_colour(),
            is_asked: is_asked(self.0, Node::Batch(drawn.batch)),
        };
        let texts = BatchTexts(*drawn);
        write!(f, "<g>{title}{outline}{texts}</g>\n")
    }
}
